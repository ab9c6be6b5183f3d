//! What a byte of a JSON text belongs to.
ghost use Rattle.std.specs.Prelude.{◌≡◌, ◌||◌};
ghost use Rattle.json.specs.Lex.{class};
ghost use Rattle.json.specs.Word.{is_operator, is_space};
ghost use Rattle.report_places.specs.Scan.{mode_of, next_mode, begins, is_bracket as is_bracket_lem};

/// What the bytes before a byte leave open.
#[derive(Clone, Copy)]
pub(crate) enum Mode {
    Between,
    InWord,
    InString,
    InEscape,
}

impl Mode {
    /// What is left open after a byte.
    pub(crate) fn after(self, byte: u8) -> Mode
        ensures { mode_of result ≡ next_mode (mode_of self) (class byte) }
    {
        match self {
            Mode::InEscape => Mode::InString,
            Mode::InString => match byte {
                b'"' => Mode::Between,
                b'\\' => Mode::InEscape,
                _ => Mode::InString,
            },
            Mode::InWord => if ends_word(byte) {
                Mode::Between
            } else {
                Mode::InWord
            },
            Mode::Between => match byte {
                b'"' => Mode::InString,
                _ => if ends_word(byte) {
                    Mode::Between
                } else {
                    Mode::InWord
                },
            },
        }
    }

    /// Whether a token begins with a byte.
    pub(crate) fn begins_token(self, byte: u8) -> bool
        ensures { result ≡ begins (mode_of self) byte }
    {
        match self {
            Mode::Between => is_bracket(byte) || !ends_word(byte),
            Mode::InWord => is_bracket(byte),
            Mode::InString | Mode::InEscape => false,
        }
    }
}

fn is_bracket(byte: u8) -> bool
    ensures { result ≡ is_bracket_lem byte }
{
    matches!(byte, b'{' | b'}' | b'[' | b']')
}

pub(crate) fn ends_word(byte: u8) -> bool
    ensures { result ≡ (is_operator byte || is_space byte) }
{
    matches!(
        byte,
        b'{' | b'}' | b'[' | b']' | b':' | b',' | b' ' | b'\t' | b'\n' | b'\r'
    )
}
