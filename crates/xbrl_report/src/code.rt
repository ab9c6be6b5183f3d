//! The codes of findings.
ghost use Rattle.std.specs.Prelude.{◌≡◌, pos, Some, IfSome};

/// Why a report is refused at a place. Each variant's meaning is a line of `specs/Finding.antt`, of
/// `specs/Dimension.antt` for what is wrong with a dimension, or of `specs/Amendment.antt`.
#[derive(Clone, Copy, PartialEq, Eq, PartialOrd, Ord, Debug)]
pub enum Code {
    NotJson,
    NotObject,
    DocumentInfo,
    DocumentType,
    Namespaces,
    NamespaceUri,
    Taxonomy,
    Facts,
    Fact,
    Value,
    Decimals,
    Dimensions,
    ConceptMissing,
    EntityMissing,
    DimensionValue,
    Name,
    UnboundPrefix,
    NotTheFiler,
    Period,
    PeriodOrder,
    UnitForm,
    Number,
    Language,
    UnknownDimension,
    TooMany,
    NotReplaceable,
}

impl Code {
    ghost use Rattle.xbrl_report.specs.CodeNumber.{number_of, text_of};

    /// The word that replies show.
    pub fn text(self) -> &'static str
        ensures { result.now ≡ text_of self }
    {
        match self {
            Code::NotJson => "not-json",
            Code::NotObject => "not-object",
            Code::DocumentInfo => "document-info",
            Code::DocumentType => "document-type",
            Code::Namespaces => "namespaces",
            Code::NamespaceUri => "namespace-uri",
            Code::Taxonomy => "taxonomy",
            Code::Facts => "facts",
            Code::Fact => "fact",
            Code::Value => "value",
            Code::Decimals => "decimals",
            Code::Dimensions => "dimensions",
            Code::ConceptMissing => "concept-missing",
            Code::EntityMissing => "entity-missing",
            Code::DimensionValue => "dimension-value",
            Code::Name => "name",
            Code::UnboundPrefix => "unbound-prefix",
            Code::NotTheFiler => "not-the-filer",
            Code::Period => "period",
            Code::PeriodOrder => "period-order",
            Code::UnitForm => "unit",
            Code::Number => "number",
            Code::Language => "language",
            Code::UnknownDimension => "unknown-dimension",
            Code::TooMany => "too-many",
            Code::NotReplaceable => "not-replaceable",
        }
    }

    /// The number by which findings of one place are ordered, and which tables keep.
    pub fn number(self) -> u8
        ensures { result ≡ number_of self }
    {
        self as u8 + 1
    }

    /// The code of that number, if there is one.
    pub fn of_number(number: i64) -> Option<Code>
        ensures value { IfSome result (λ code. number ≡ pos (number_of code)) }
        ensures complete { (code : Code) → number ≡ pos (number_of code) → result ≡ Some code }
    {
        match number {
            1 => Some(Code::NotJson),
            2 => Some(Code::NotObject),
            3 => Some(Code::DocumentInfo),
            4 => Some(Code::DocumentType),
            5 => Some(Code::Namespaces),
            6 => Some(Code::NamespaceUri),
            7 => Some(Code::Taxonomy),
            8 => Some(Code::Facts),
            9 => Some(Code::Fact),
            10 => Some(Code::Value),
            11 => Some(Code::Decimals),
            12 => Some(Code::Dimensions),
            13 => Some(Code::ConceptMissing),
            14 => Some(Code::EntityMissing),
            15 => Some(Code::DimensionValue),
            16 => Some(Code::Name),
            17 => Some(Code::UnboundPrefix),
            18 => Some(Code::NotTheFiler),
            19 => Some(Code::Period),
            20 => Some(Code::PeriodOrder),
            21 => Some(Code::UnitForm),
            22 => Some(Code::Number),
            23 => Some(Code::Language),
            24 => Some(Code::UnknownDimension),
            25 => Some(Code::TooMany),
            26 => Some(Code::NotReplaceable),
            _ => None,
        }
    }

    /// The code of that word, if there is one.
    pub fn of_text(text: &str) -> Option<Code>
        ensures value { IfSome result (λ code. text.now ≡ text_of code) }
        ensures complete { (code : Code) → text.now ≡ text_of code → result ≡ Some code }
    {
        match text {
            "not-json" => Some(Code::NotJson),
            "not-object" => Some(Code::NotObject),
            "document-info" => Some(Code::DocumentInfo),
            "document-type" => Some(Code::DocumentType),
            "namespaces" => Some(Code::Namespaces),
            "namespace-uri" => Some(Code::NamespaceUri),
            "taxonomy" => Some(Code::Taxonomy),
            "facts" => Some(Code::Facts),
            "fact" => Some(Code::Fact),
            "value" => Some(Code::Value),
            "decimals" => Some(Code::Decimals),
            "dimensions" => Some(Code::Dimensions),
            "concept-missing" => Some(Code::ConceptMissing),
            "entity-missing" => Some(Code::EntityMissing),
            "dimension-value" => Some(Code::DimensionValue),
            "name" => Some(Code::Name),
            "unbound-prefix" => Some(Code::UnboundPrefix),
            "not-the-filer" => Some(Code::NotTheFiler),
            "period" => Some(Code::Period),
            "period-order" => Some(Code::PeriodOrder),
            "unit" => Some(Code::UnitForm),
            "number" => Some(Code::Number),
            "language" => Some(Code::Language),
            "unknown-dimension" => Some(Code::UnknownDimension),
            "too-many" => Some(Code::TooMany),
            "not-replaceable" => Some(Code::NotReplaceable),
            _ => None,
        }
    }
}
