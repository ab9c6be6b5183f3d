//! The texts that the worked examples and the tests share, byte for byte: reports, the replies to them, and the
//! databases of earlier versions; and streams that give and take texts in small steps. What may live here: what two
//! crates name, each text written out by hand, and streams. What the texts mean is not known here.
#![tactic(auto)]

mod earlier;
mod parts;
mod replies;
mod streams;

pub use earlier::{
    EARLIER_REGISTER, FIRST_OUTBOX, FOURTH_REGISTER, SECOND_REGISTER, THIRD_REGISTER,
};
pub use parts::{Text, bytes_of, front};
pub use replies::{
    CODING, CONTENT_CODING, CONTINUE, HEAD_TOO_LARGE, KEY_BAD, KEY_MISSING, KEY_REUSED, MALFORMED,
    NO_FILINGS, NO_METHOD, NO_METHOD_OF_HEAD, NO_PATH, NOT_JSON, NOT_REPLACEABLE, ONE_FILING,
    REGISTERED, REGISTERED_CLOSED, REGISTERED_SECOND, TOO_LARGE, UNAVAILABLE,
};
pub use streams::{Giving, Taking, Telling, Turn, Waiting};

/// A valid report without facts, 84 bytes.
pub const SMALLEST: &str =
    "{\"documentInfo\":{\"documentType\":\"https://xbrl.org/2021/xbrl-json\",\"taxonomy\":[\"t\"]}}";

/// A valid report of one fact, 393 bytes.
pub const REPORT: &str =
    "{\"documentInfo\":{\"documentType\":\"https://xbrl.org/2021/xbrl-json\",\"namespaces\":{\"eg\":\"http://example.com/eg\",\"iso4217\":\"http://www.xbrl.org/2003/iso4217\",\"lei\":\"http://standards.iso.org/iso/17442\"},\"taxonomy\":[\"http://example.com/eg.xsd\"]},\"facts\":{\"f1\":{\"value\":\"100\",\"decimals\":0,\"dimensions\":{\"concept\":\"eg:Assets\",\"entity\":\"lei:ACME\",\"period\":\"2024-12-31T00:00:00\",\"unit\":\"iso4217:EUR\"}}}}";

/// A body without facts, which is no report, 12 bytes.
pub const NO_FACTS: &[u8] = b"{\"facts\":{}}";
