//! Requests in whatever parts their bytes come.
use crate::{Connection, Event};

const POST: &[u8] =
    b"POST /a HTTP/1.1\r\nHost: x\r\nExpect: 100-continue\r\nContent-Length: 5\r\n\r\nhello";

const GET: &[u8] = b"GET /b HTTP/1.1\r\nHost: x\r\nConnection: close\r\n\r\n";

#[test]
fn in_parts(rt: HostRuntime) {
    let mut connection = Connection::new(rt.alloc());
    assert!(rt; connection.next_event() == Ok(Event::NeedData { awaits: false }));
    assert!(rt; connection.receive_data(&POST[..20]).is_ok());
    assert!(rt; connection.next_event() == Ok(Event::NeedData { awaits: false }));
    assert!(rt; connection.receive_data(&POST[20..72]).is_ok());
    assert!(rt; connection.next_event() == Ok(Event::NeedData { awaits: true }));
    assert!(rt; connection.receive_data(&POST[72..]).is_ok());
    assert!(rt; connection.next_event() == Ok(Event::Request));
    assert!(rt; connection.request().body == b"hello".as_slice());
    assert!(rt; connection.request().head.path() == b"/a".as_slice());
    connection.finish();
    assert!(rt; connection.next_event() == Ok(Event::NeedData { awaits: false }));
}

#[test]
fn one_behind_another(rt: HostRuntime) {
    let mut connection = Connection::new(rt.alloc());
    assert!(rt; connection.receive_data(POST).is_ok());
    assert!(rt; connection.receive_data(GET).is_ok());
    assert!(rt; connection.receive_data(b"more").is_ok());
    assert!(rt; connection.next_event() == Ok(Event::Request));
    connection.finish();
    assert!(rt; connection.next_event() == Ok(Event::Request));
    assert!(rt; connection.request().head.path() == b"/b".as_slice());
    connection.finish();
    assert!(rt; connection.next_event() == Ok(Event::ConnectionClosed));
}
