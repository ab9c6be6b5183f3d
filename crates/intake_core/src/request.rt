//! A completed request, as one value.

ghost use Rattle.std.specs.Prelude.{◌≡◌};

use key_string::KeyText;
use std::marker::Model;

/// A completed request: who sent it, under which key, which filing it is to replace, if any, and the report. What a
/// register keeps is given in this form too, so nothing is promised of its parts.
#[derive(Drop)]
pub struct Request<'a> {
    pub filer: &'a str,
    pub key: &'a KeyText,
    pub target: Option<u64>,
    pub body: &'a [u8],
}

impl<'a> Model for Request<'a> {
    ghost use Rattle.filing_model.specs.Request.{Request};
    ghost use Rattle.filing_model.specs.Views.{the_request};

    ghost Value = { Request };

    ghost view = { λ r. the_request r.filer.now r.key.now r.target r.body.now };
}

impl Request<'_> {
    ghost use Rattle.filing_model.specs.Request.{same_content};

    /// Whether both ask for the same thing under their key: to replace the same filing, or none, with the same body.
    pub fn asks_the_same(&self, other: &Request<'_>) -> bool
        ensures { result ≡ same_content self.now other.now }
    {
        self.body == other.body && self.target == other.target
    }
}
