//! What each code means, and what to do about it, in the words of the protocol and in HTML.

use xbrl_report::Code;

/// What a finding with this code means.
pub(crate) fn meaning(code: Code) -> &'static str {
    match code {
        Code::NotJson => {
            "The body is no JSON: it is cut off, has a byte order mark or another encoding than UTF-8, a \
            number beyond any float (<code>1e400</code>), half of a surrogate pair, or more than 127 \
            levels."
        }
        Code::NotObject => "The body is JSON, but a list, a string or the like.",
        Code::DocumentInfo => "There is no object <code>documentInfo</code>.",
        Code::DocumentType => "The document type is missing or of another edition.",
        Code::Namespaces => "<code>namespaces</code> is not an object.",
        Code::NamespaceUri => "A prefix is bound to something other than a string.",
        Code::Taxonomy => {
            "<code>taxonomy</code> is missing, empty or not a list, or one of its elements is not a \
            string."
        }
        Code::Facts => "<code>facts</code> is not an object.",
        Code::Fact => "A member of <code>facts</code> is not an object.",
        Code::Value => "The value is missing, or a number, a boolean, a list or an object.",
        Code::Decimals => {
            "<code>decimals</code> is not a whole number of JSON: a string, <code>1.5</code>, \
            <code>1.0</code>, or too large."
        }
        Code::Dimensions => "The fact has no object <code>dimensions</code>.",
        Code::ConceptMissing => "The fact has no <code>concept</code>.",
        Code::EntityMissing => "The fact has no <code>entity</code>, and is not a note.",
        Code::DimensionValue => {
            "A core dimension is not a string, or one with a colon is neither a string nor \
            <code>null</code>."
        }
        Code::Name => "A concept, an entity or the name of a dimension has the wrong form.",
        Code::UnboundPrefix => "A prefix is not a member of <code>namespaces</code>.",
        Code::NotTheFiler => "The entity&#39;s identifier is not the code in the path.",
        Code::Period => "The period has the wrong form, or no such day or time exists.",
        Code::PeriodOrder => "The first of two times is not before the second.",
        Code::UnitForm => "The unit has the wrong form.",
        Code::Number => "The fact has a unit, and its value is no number.",
        Code::Language => {
            "The language is empty or has other characters than letters, digits and hyphens."
        }
        Code::UnknownDimension => "A name without a colon is no core dimension.",
        Code::TooMany => {
            "There are more than 1,000 findings, or one at a place of more than 1,024 bytes, and none of \
            them is shown."
        }
        Code::NotReplaceable => {
            "The report was sent to replace a filing that is not the filer&#39;s, is not there, or was \
            replaced."
        }
    }
}

/// What to do about a finding with this code.
pub(crate) fn remedy(code: Code) -> &'static str {
    match code {
        Code::NotJson => "See whether another JSON reader takes the file.",
        Code::NotObject => "The report is one object.",
        Code::DocumentInfo => "Add it, with <code>documentType</code> and <code>taxonomy</code>.",
        Code::DocumentType => {
            "Write <code>&quot;documentType&quot;:&quot;https://xbrl.org/2021/xbrl-json&quot;</code>, to \
            the letter."
        }
        Code::Namespaces => "Map each prefix to its URI, or leave it out.",
        Code::NamespaceUri => "Write the URI as a string.",
        Code::Taxonomy => "List a URI; it is not fetched.",
        Code::Facts => "Map each identifier to its fact.",
        Code::Fact => "Write an object with <code>value</code> and <code>dimensions</code>.",
        Code::Value => "Write it as a string, <code>&quot;100&quot;</code>, or <code>null</code>.",
        Code::Decimals => "Leave it out if the value is exact.",
        Code::Dimensions => "Add it, with <code>concept</code> and <code>entity</code>.",
        Code::ConceptMissing => "Add it.",
        Code::EntityMissing => "Add the scheme&#39;s prefix, a colon and the filer&#39;s code.",
        Code::DimensionValue => "Write the value as a string.",
        Code::Name => {
            "A concept is <code>prefix:name</code>, an entity <code>prefix:identifier</code>."
        }
        Code::UnboundPrefix => "Bind it there, or correct it. Case counts.",
        Code::NotTheFiler => "Correct one of them. Case counts.",
        Code::Period => {
            "<code>2024-12-31T00:00:00</code>, with no zone and no <code>24:00:00</code>."
        }
        Code::PeriodOrder => "For a moment write one alone.",
        Code::UnitForm => {
            "<code>iso4217:EUR</code>; <code>a:x*b:y</code>; <code>a:x/b:y</code>; \
            <code>(a:x*b:y)/c:z</code>."
        }
        Code::Number => {
            "<code>1234.5</code>, <code>-1e3</code>, <code>INF</code>, <code>NaN</code>: no comma, space \
            or currency; or leave the unit out."
        }
        Code::Language => "<code>en</code>, <code>de-AT</code>.",
        Code::UnknownDimension => "Mind the case (<code>noteId</code>), or add a prefix.",
        Code::TooMany => {
            "Look for one cause of many, as an unbound prefix, or send a part of the facts."
        }
        Code::NotReplaceable => {
            "Replace the one that has no <code>replaced_by</code> in the list."
        }
    }
}
