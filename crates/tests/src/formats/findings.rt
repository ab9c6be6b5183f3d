//! The lines of findings.

use super::rows::hold;
use finding_lines::{Form, lines};
use std::alloc::{AllocError, Global};
use xbrl_report::{Code, Finding};

/// The name of a file, a body, and what is found in it: places with codes.
type Found = (&'static str, &'static str, &'static [(&'static str, Code)]);

fn told(alloc: Global, form: Form, (file, body, found): Found) -> Result<String, AllocError> {
    let mut findings = Vec::new(alloc);
    for (place, code) in found {
        let place = String::from_str(alloc, place)?;
        findings.push(Finding { place, code: *code })?;
    }
    let told = lines(alloc, form, file, body.as_bytes(), &findings)?;
    String::from_utf8_lossy(alloc, &told)
}

fn sentences(alloc: Global, found: Found) -> Result<String, AllocError> {
    told(alloc, Form::Sentences, found)
}

fn objects(alloc: Global, found: Found) -> Result<String, AllocError> {
    told(alloc, Form::Objects, found)
}

const SENTENCES: &[(Found, &str)] = &[
    (("r", "{}", &[]), ""),
    (
        (
            "r.json",
            "{\n \"facts\": {\"f\": {\"value\": \"1,5\"}}}",
            &[("/facts/f/value", Code::Number)],
        ),
        "r.json:2:27: number: \"1,5\" is not a number (/facts/f/value)\n",
    ),
    (
        ("r", r#"{"facts":[1]}"#, &[("/facts", Code::Facts)]),
        "r:1:10: facts: the array is not an object (/facts)\n",
    ),
    (
        (
            "r",
            r#"{"facts":{"f":{}}}"#,
            &[("/facts/f/value", Code::Value)],
        ),
        "r:1:15: value: the member is missing (/facts/f/value)\n",
    ),
    (
        (
            "r",
            r#"{"a\u000ab":5}"#,
            &[("/a\nb", Code::UnknownDimension)],
        ),
        "r:1:13: unknown-dimension: \"a\\u000ab\" is not a known dimension (/a\\u000ab)\n",
    ),
    (
        ("r", " {}", &[("", Code::TooMany)]),
        "r:1:2: too-many: the object has more findings than are shown ()\n",
    ),
    (
        ("r", "-1.5e3", &[("", Code::NotObject)]),
        "r:1:1: not-object: -1.5e3 is not an object ()\n",
    ),
    (
        (
            "r",
            "\"xxxxxxxxxxxxxxxxxxxxxxxxxxxxxxxxxxxxxxxxxxxxxxxxxxxxxxxxxx\"",
            &[("", Code::NotObject)],
        ),
        "r:1:1: not-object: \"xxxxxxxxxxxxxxxxxxxxxxxxxxxxxxxxxxxxxxxxxxxxxxxxxxxxxxxxxx\" is not an object ()\n",
    ),
    (
        (
            "r",
            "\"xxxxxxxxxxxxxxxxxxxxxxxxxxxxxxxxxxxxxxxxxxxxxxxxxxxxxxxxxxxx\"",
            &[("", Code::NotObject)],
        ),
        "r:1:1: not-object: \"xxxxxxxxxxxxxxxxxxxxxxxxxxxxxxxxxxxxxxxxxxxxxxxxxxxxxxxxxxx... is not an object ()\n",
    ),
    (
        ("a\u{7f}b", r#"{"a":"#, &[("", Code::NotJson)]),
        "a\\u007fb:1:6: not-json: the body ends too soon ()\n",
    ),
    (
        ("r", "[1,\n x]", &[("", Code::NotJson)]),
        "r:2:2: not-json: the body is not valid JSON ()\n",
    ),
    (
        ("r", "[\"é\", x]", &[("", Code::NotJson)]),
        "r:1:7: not-json: the body is not valid JSON ()\n",
    ),
];

#[test]
fn sentences_for_people(rt: HostRuntime) {
    hold(&rt, rt.alloc(), SENTENCES, sentences);
}

const OBJECTS: &[(Found, &str)] = &[
    (("r", "{}", &[]), ""),
    (
        (
            "r",
            r#"{"a":"1,5"}"#,
            &[("/a", Code::Number), ("/b", Code::Value)],
        ),
        concat!(
            r#"{"code":"number","column":6,"file":"r","line":1,"message":"\"1,5\" is not a number","#,
            r#""place":"/a","value":"\"1,5\""}"#,
            "\n",
            r#"{"code":"value","column":1,"file":"r","line":1,"message":"the member is missing","#,
            r#""place":"/b","value":null}"#,
            "\n"
        ),
    ),
    (
        ("r", "[", &[("", Code::NotJson)]),
        concat!(
            r#"{"code":"not-json","column":2,"file":"r","line":1,"message":"the body ends too soon","#,
            r#""place":"","value":null}"#,
            "\n"
        ),
    ),
];

#[test]
fn objects_for_programs(rt: HostRuntime) {
    hold(&rt, rt.alloc(), OBJECTS, objects);
}
