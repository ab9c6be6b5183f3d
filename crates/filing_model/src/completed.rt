//! Completed requests, and filings, with their bytes.

use std::marker::Model;

/// A completed request: who sent it, under which key, which filing it replaces, if any, and the bytes of the report.
#[derive(Drop)]
pub struct Completed {
    pub filer: String,
    pub key: String,
    pub target: Option<u64>,
    pub body: Vec<u8>,
}

impl Model for Completed {
    ghost use Rattle.std.specs.Prelude.{string_bytes};
    ghost use Rattle.filing_model.specs.Request.{Request};

    ghost Value = { Request };

    ghost view = { λ r. record {
      filer = string_bytes r.filer;
      key = string_bytes r.key;
      target = r.target;
      body =
          r.body.items;
    } };
}

/// A registered request under its number, which counts from 1, with the filing that it replaces, if any.
#[derive(Drop)]
pub struct Registered {
    pub number: u64,
    pub replaces: Option<u64>,
    pub filer: String,
    pub key: String,
    pub body: Vec<u8>,
}

impl Model for Registered {
    ghost use Rattle.std.specs.Prelude.{string_bytes};
    ghost use Rattle.filing_model.specs.Register.{Filing};

    ghost Value = { Filing };

    ghost view = { λ f. record {
      number = f.number;
      request = record {
        filer = string_bytes f.filer;
        key =
            string_bytes f.key;
        target = f.replaces;
        body = f.body.items;
      };
    } };
}
