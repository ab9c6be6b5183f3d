//! Where the values of a JSON text are, and how they are shown.

use super::rows::hold;
use report_places::{ValuePlace, places, position_of, value_text, whole_value};
use std::alloc::{AllocError, Global};

/// A place as `OFFSET LINE:COLUMN`, with `above` for one of a value that is above the missing one.
fn told_place(alloc: Global, place: &ValuePlace) -> Result<String, AllocError> {
    let offset = place.offset;
    let line = place.position.line;
    let column = place.position.column;
    let word = if place.is_there { "" } else { " above" };
    format!(in alloc; "{offset} {line}:{column}{word};")
}

/// The places of values in a text, or that it is no JSON text.
fn told(alloc: Global, (text, pointers): (&[u8], &[&str])) -> Result<String, AllocError> {
    let Some(found) = places(alloc, text, pointers)? else {
        return String::from_str(alloc, "no JSON text");
    };
    let mut told = String::new(alloc);
    for place in &found {
        told.push_str(&told_place(alloc, place)?)?;
    }
    Ok(told)
}

const PLACES: &[((&[u8], &[&str]), &str)] = &[
    ((b" [ ]", &[""]), "1 1:2;"),
    ((br#"{"a":1,"a":2}"#, &["/a"]), "11 1:12;"),
    ((br#"{"~x":1}"#, &["/~0x"]), "6 1:7;"),
    ((br#"{"~1":1,"/":2}"#, &["/~01", "/~1"]), "6 1:7;12 1:13;"),
    ((br#"{"a/b":[10,[20,30]]}"#, &["/a~1b/1/1"]), "15 1:16;"),
    ((br#"{"\u0041":true}"#, &["/A"]), "10 1:11;"),
    ((br#"{"":{"":5}}"#, &["/", "//"]), "4 1:5;8 1:9;"),
    ((br#"{"a":["{",{"b":null}]}"#, &["/a/1/b"]), "15 1:16;"),
    (
        (b"{\"\xc3\xa9\":\"\xc3\xbc\",\"k\":0}", &["/k"]),
        "15 1:14;",
    ),
    ((b"{\r\n  \"a\": 1\r\n}", &["/a"]), "10 2:8;"),
    ((b"[\n\n\"\xf0\x9f\x98\x80\", 7]", &["/1"]), "11 3:6;"),
    (
        (br#"{"a":{"b":1}}"#, &["/a/c", "/x/y", "/a/b/c"]),
        "5 1:6 above;0 1:1 above;10 1:11 above;",
    ),
    (
        (b"[0,1]", &["/2", "/01", "/-"]),
        "0 1:1 above;0 1:1 above;0 1:1 above;",
    ),
    ((b" {}", &["a", "/~2"]), "1 1:2 above;1 1:2 above;"),
    (
        (br#"{"a":1,"b":2}"#, &["/b", "", "/a"]),
        "11 1:12;0 1:1;5 1:6;",
    ),
    ((b"{\"a\":}", &[""]), "no JSON text"),
    ((b"", &[""]), "no JSON text"),
    ((b"[1,]", &[""]), "no JSON text"),
    ((b"\"\xff\"", &[""]), "no JSON text"),
];

#[test]
fn places_of_values(rt: HostRuntime) {
    hold(&rt, rt.alloc(), PLACES, told);
}

/// A position in a text of two lines, whose first character has two bytes.
fn told_position(alloc: Global, offset: usize) -> Result<String, AllocError> {
    let found = position_of("éa\nb".as_bytes(), offset);
    let line = found.line;
    let column = found.column;
    format!(in alloc; "{line}:{column}")
}

const POSITIONS: &[(usize, &str)] = &[
    (0, "1:1"),
    (2, "1:2"),
    (3, "1:3"),
    (4, "2:1"),
    (5, "2:2"),
    (9, "2:2"),
];

#[test]
fn positions_of_bytes(rt: HostRuntime) {
    hold(&rt, rt.alloc(), POSITIONS, told_position);
}

#[test]
fn values_that_are_shown(rt: HostRuntime) {
    let text = br#"{"a":"x\"y","b":[-1.5e3,true],"c": null}"#;
    assert_eq!(rt; value_text(text, 5), Some(br#""x\"y""#.as_slice()));
    assert_eq!(rt; value_text(text, 17), Some(b"-1.5e3".as_slice()));
    assert_eq!(rt; value_text(text, 24), Some(b"true".as_slice()));
    assert_eq!(rt; value_text(text, 35), Some(b"null".as_slice()));
    assert!(rt; value_text(text, 0).is_none());
    assert!(rt; value_text(text, 16).is_none());
    assert!(rt; value_text(text, 100).is_none());
    let long = "\"éééééééééééééééééééééééééééééééééééééééééééééééééééééééééééééééé\"";
    let shown = "\"ééééééééééééééééééééééééééééééééééééééééééééééééééééééééééé";
    assert_eq!(rt; value_text(long.as_bytes(), 0), Some(shown.as_bytes()));
    assert_eq!(rt; whole_value(long.as_bytes(), 0), Some(long.as_bytes()));
}
