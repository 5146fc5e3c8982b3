//! Texts that are media types, lists and headers, and texts that are none.

use crate::asserting::add_each;
use http::header::HeaderMap;
use life_core::Twin;
use life_gate::media::{MediaItem, MediaType, accepts, media_list, media_type};
use std::process::Abort;
use std::test::Fail;

/// The kind and the sub of a media type, or none.
type Parts = Option<(&'static str, &'static str)>;

/// A list whose quoted part reads as a list too.
const QUOTED: &[u8] = b"foo/bar; parisien=\"baguette, text/html, jambon, fromage\"";

/// The same with one item more.
const SPREAD: &[u8] = b"foo/bar; parisien=\"baguette, text/html, jambon, fromage\", application/*";

/// Asserts the kind and the sub of a media type.
fn is_media(rt: &impl Abort, text: &[u8], media: &MediaType, kind: &str, sub: &str) {
    assert_eq!(rt; media.kind.as_str(), kind, "the kind in {text:?}");
    assert_eq!(rt; media.sub.as_str(), sub, "the sub in {text:?}");
}

/// Asserts what is read of a text as a media type.
fn reads(rt: &(impl Abort + AllocGlobal), text: &[u8], want: Parts) {
    match (media_type(rt.alloc(), text), want) {
        (Ok(Some(media)), Some((kind, sub))) => is_media(rt, text, &media, kind, sub),
        (Ok(None), None) => (),
        _ => panic!(rt; "read of {text:?}"),
    }
}

#[test]
fn media_types(rt: HostRuntime) {
    let rows: [(&[u8], Parts); 36] = [
        (b"application/json", Some(("application", "json"))),
        (b"Application/LD+JSON", Some(("application", "ld"))),
        (b" \ta/b\t ", Some(("a", "b"))),
        (b"a/b;q=0", Some(("a", "b"))),
        (b"a/b \t; \x00\xff\"", Some(("a", "b"))),
        (b"a/b;", Some(("a", "b"))),
        (b"*/*", Some(("*", "*"))),
        (b"a/*+x", Some(("a", "*"))),
        (b"a+b/c", Some(("a+b", "c"))),
        (b"!#$%&'*+-.^_`|~/a", Some(("!#$%&'*+-.^_`|~", "a"))),
        (b"09AZ/Az", Some(("09az", "az"))),
        (b"a/+json", Some(("a", "+json"))),
        (b"a/b+", Some(("a", "b"))),
        (b"a/++x", Some(("a", "+"))),
        (b"a/+", Some(("a", "+"))),
        (b"a/b+c+d", Some(("a", "b+c"))),
        (b"", None),
        (b" ", None),
        (b"json", None),
        (b"/", None),
        (b"a/", None),
        (b"/b", None),
        (b"a/b/c", None),
        (b"a /b", None),
        (b"a/ b", None),
        (b"a/b c", None),
        (b"a/b, c/d", None),
        (b"a/;b", None),
        (b"\na/b", None),
        (b"a/b\r\n", None),
        (b"a/b\x00", None),
        (b"a\x00/b", None),
        (b"a/b\xff", None),
        (b"\xc3\xa9/b", None),
        (b"\"a\"/b", None),
        (b"a/(b)", None),
    ];
    for (text, want) in rows {
        reads(&rt, text, want);
    }
}

/// Asserts the kind and the sub of an item, with a slash between them, or that it is bad, by no slash.
fn is_item(rt: &impl Abort, text: &[u8], item: &MediaItem, want: &str) {
    match (item, want.split_once('/')) {
        (MediaItem::Good(media), Some((kind, sub))) => is_media(rt, text, media, kind, sub),
        (MediaItem::Bad, None) => (),
        _ => panic!(rt; "an item of {text:?}"),
    }
}

/// Asserts the items of a list.
fn items_are(rt: &impl Abort, text: &[u8], items: &[MediaItem], wants: &[&str]) {
    assert_eq!(rt; items.len(), wants.len(), "the items of {text:?}");
    for (item, want) in items.iter().zip(wants.iter()) {
        is_item(rt, text, item, want);
    }
}

/// Asserts what is read of a text as a list of media types.
fn lists(rt: &(impl Abort + AllocGlobal), text: &[u8], wants: &[&str]) {
    match media_list(rt.alloc(), text) {
        Ok(list) => items_are(rt, text, list.as_slice(), wants),
        Err(_) => panic!(rt; "no memory for {text:?}"),
    }
}

#[test]
fn media_lists(rt: HostRuntime) {
    let rows: [(&[u8], &[&str]); 16] = [
        (b"", &["bad"]),
        (b",", &["bad", "bad"]),
        (b",,", &["bad", "bad", "bad"]),
        (b"a/b", &["a/b"]),
        (b"a/b,", &["a/b", "bad"]),
        (b"a/b,c/d", &["a/b", "c/d"]),
        (b" a/b;q=1 , c/d+e", &["a/b", "c/d"]),
        (b"a/b;x=\"1,2\\\",3\", , c/d", &["a/b", "bad", "c/d"]),
        (b"a/b;x=\"1\\\\\", c/d", &["a/b", "c/d"]),
        (b"a/b;x=\\\", c/d", &["a/b"]),
        (b"a/b;x=\\,c/d", &["a/b", "c/d"]),
        (b"a/b;x=\"1, c/d", &["a/b"]),
        (b"a/b;x=\"1, c/d\\", &["a/b"]),
        (b"a/b;x=\"\"\"\"\", c/d", &["a/b"]),
        (b"\"a/b\", c/d", &["bad", "c/d"]),
        (
            b"\x00,a/b;\x00,\xff,c/d;\xff",
            &["bad", "a/b", "bad", "c/d"],
        ),
    ];
    for (text, wants) in rows {
        lists(&rt, text, wants);
    }
}

/// Asserts whether these values of `accept` accept a media type.
fn accept(
    rt: &(impl Abort + AllocGlobal),
    values: &[&'static [u8]],
    media: &MediaType,
    want: bool,
) {
    let mut headers = HeaderMap::new(rt.alloc());
    add_each(rt, &mut headers, "accept", values);
    match accepts(rt.alloc(), &headers, media) {
        Ok(found) => assert_eq!(rt; found, want, "{values:?}"),
        Err(_) => panic!(rt; "no memory for {values:?}"),
    }
}

/// Asserts the same of the twin of a media type that is read.
fn accept_read(rt: &(impl Abort + AllocGlobal), text: &str, values: &[&'static [u8]], want: bool) {
    let Ok(Some(media)) = media_type(rt.alloc(), text.as_bytes()) else {
        panic!(rt; "no media type: {text}");
    };
    match media.twin(rt.alloc()) {
        Ok(twin) => accept(rt, values, &twin, want),
        Err(_) => panic!(rt; "no memory for {text}"),
    }
}

#[test]
fn accepted_media_types(rt: HostRuntime) {
    let rows: [(&str, &[&[u8]], bool); 21] = [
        ("application/xml", &[SPREAD], true),
        ("text/html", &[QUOTED], false),
        (
            "application/json",
            &[b"text/strings", b"invalid, application/json"],
            true,
        ),
        ("application/json", &[b"invalid"], false),
        ("application/json", &[], true),
        ("application/json", &[b""], false),
        ("Application/LD+JSON", &[b"application/ld+json;q=0"], true),
        ("Application/LD+JSON", &[b"application/ld"], true),
        ("Application/LD+JSON", &[b"application/json"], false),
        ("a/b", &[b"A/B"], true),
        ("a/b", &[b"a/*"], true),
        ("a/b", &[b"*/*"], true),
        ("a/b", &[b"*/b"], false),
        ("a/b", &[b"c/*"], false),
        ("a/b", &[b"a/c", b"c/b"], false),
        ("a/b", &[b"a/b;x=\xe9"], false),
        ("a/b", &[b"\xe9", b"c/d,\ta/b"], true),
        ("a/b", &[b"*"], false),
        ("*/*", &[b"a/b"], false),
        ("a/*", &[b"a/b"], false),
        ("*/b", &[b"*/b"], true),
    ];
    for (text, values, want) in rows {
        accept_read(&rt, text, values, want);
    }
}

#[test]
fn long_lists(rt: HostRuntime) -> Result<(), Fail> {
    let alloc = rt.alloc();
    let many = 1 << 20;
    for (byte, want) in [
        (b',', many + 1),
        (b'"', 1),
        (b'\\', 1),
        (b' ', 1),
        (b'a', 1),
    ] {
        let text = vec![in alloc; byte; many]?;
        let list = media_list(alloc, text.as_slice())?;
        assert_eq!(rt; list.as_slice().len(), want, "of bytes {byte}");
    }
    Ok(())
}
