use crate::wire::cut::cut;
use crate::wire::request::Cut;
use crate::wire::response::answer;
use sp_base::failure::Memory;
use std::alloc::Global;
use std::test::Fail;

#[derive(Debug, Clone, Copy, PartialEq)]
enum Shape {
    Whole(usize),
    Partial,
    Hopeless,
}

fn cut_shape(alloc: Global, bytes: &[u8]) -> Result<Shape, Memory> {
    match cut(alloc, bytes)? {
        Cut::Whole { request: _, used } => Ok(Shape::Whole(used)),
        Cut::Partial => Ok(Shape::Partial),
        Cut::Hopeless => Ok(Shape::Hopeless),
    }
}

#[test]
fn which_bytes_are_requests(rt: HostRuntime) -> Result<(), Fail> {
    let alloc = rt.alloc();
    for (bytes, want) in [
        (&b"GET / HTTP/1.1\r\n\r\n"[..], Shape::Whole(18)),
        (&b"\r\n\nGET / HTTP/1.0\n\n"[..], Shape::Whole(19)),
        (
            &b"GET / HTTP/1.1\r\n\r\nGET / HTTP/1.1\r\n\r\n"[..],
            Shape::Whole(18),
        ),
        (
            &b"POST / HTTP/1.1\ncontent-LENGTH: 003\n\nabcd"[..],
            Shape::Whole(40),
        ),
        (
            &b"POST / HTTP/1.1\nContent-Length: 3\n\nab"[..],
            Shape::Partial,
        ),
        (
            &b"POST / HTTP/1.1\nContent-Length: 8388608\n\n"[..],
            Shape::Partial,
        ),
        (
            &b"POST / HTTP/1.1\nContent-Length: 8388609\n\n"[..],
            Shape::Hopeless,
        ),
        (
            &b"POST / HTTP/1.1\nContent-Length: +3\n\nabc"[..],
            Shape::Hopeless,
        ),
        (
            &b"POST / HTTP/1.1\nContent-Length: 3\nContent-Length: 3\n\nabc"[..],
            Shape::Hopeless,
        ),
        (
            &b"POST / HTTP/1.1\nTransfer-Encoding: chunked\n\n0\r\n\r\n"[..],
            Shape::Hopeless,
        ),
        (&b"GET / HTTP/2.0\r\n"[..], Shape::Hopeless),
        (&b"GET  / HTTP/1.1\r\n"[..], Shape::Hopeless),
        (&b"GET /\xff HTTP/1.1\r\n"[..], Shape::Hopeless),
        (&b"\r\n"[..], Shape::Partial),
        (&b""[..], Shape::Partial),
    ] {
        assert_eq!(rt; cut_shape(alloc, bytes)?, want);
    }
    Ok(())
}

#[test]
fn a_head_that_is_cut_short_is_hopeless_as_soon_as_nothing_helps(
    rt: HostRuntime,
) -> Result<(), Fail> {
    let alloc = rt.alloc();
    for (bytes, want) in [
        (&b"POST / HTTP/1.1\nTransfer-Encoding"[..], Shape::Partial),
        (&b"POST / HTTP/1.1\nTransfer-Encoding:"[..], Shape::Hopeless),
        (
            &b"POST / HTTP/1.1\nTRANSFER-encoding: chunked\n"[..],
            Shape::Hopeless,
        ),
        (&b"POST / HTTP/1.1\nContent-Length"[..], Shape::Partial),
        (&b"POST / HTTP/1.1\nContent-Length: "[..], Shape::Partial),
        (&b"POST / HTTP/1.1\nContent-Length: \n"[..], Shape::Hopeless),
        (&b"POST / HTTP/1.1\nContent-Length: 9"[..], Shape::Partial),
        (&b"POST / HTTP/1.1\nContent-Length: 9x"[..], Shape::Hopeless),
        (&b"POST / HTTP/1.1\nContent-Length: 9 "[..], Shape::Partial),
        (
            &b"POST / HTTP/1.1\nContent-Length: 9 1"[..],
            Shape::Hopeless,
        ),
        (
            &b"POST / HTTP/1.1\nContent-Length: 8388609"[..],
            Shape::Hopeless,
        ),
        (
            &b"POST / HTTP/1.1\nContent-Length: 1\nContent-Lengt"[..],
            Shape::Partial,
        ),
        (
            &b"POST / HTTP/1.1\nContent-Length: 1\nContent-Length:"[..],
            Shape::Hopeless,
        ),
        (
            &b"POST / HTTP/1.1\nContent-Length: 1\nContent-Length: 1\n"[..],
            Shape::Hopeless,
        ),
        (&b"POST / HTTP/1.1\nA: 1\r"[..], Shape::Partial),
        (&b"POST / HTTP/1.1\nA: 1\n\r"[..], Shape::Partial),
    ] {
        assert_eq!(rt; cut_shape(alloc, bytes)?, want);
    }
    Ok(())
}

#[test]
fn a_request_is_the_same_byte_by_byte(rt: HostRuntime) -> Result<(), Fail> {
    let alloc = rt.alloc();
    let bytes =
        b"\r\nPOST /TOPIC/a%2Fb HTTP/1.1\r\nHost: x\r\nContent-Length: 5 \r\nA:\t b c\n\r\nhello";
    for n in 0..bytes.len() {
        assert_eq!(rt; cut_shape(alloc, &bytes[..n])?, Shape::Partial);
    }
    match cut(alloc, bytes)? {
        Cut::Whole { request, used } => {
            assert_eq!(rt; used, bytes.len());
            assert_eq!(rt; request.method(), b"POST".as_slice());
            assert_eq!(rt; request.target(), b"/TOPIC/a%2Fb".as_slice());
            assert_eq!(rt; request.body(), b"hello".as_slice());
            let fields = request.fields();
            assert_eq!(rt; fields.len(), 3);
            assert_eq!(rt; fields[1].name.as_slice(), b"Content-Length".as_slice());
            assert_eq!(rt; fields[1].value.as_slice(), b"5".as_slice());
            assert_eq!(rt; fields[2].value.as_slice(), b"b c".as_slice());
        }
        _ => assert!(rt; false),
    }
    Ok(())
}

#[test]
fn the_limits_of_a_head(rt: HostRuntime) -> Result<(), Fail> {
    let alloc = rt.alloc();
    for (letters, want) in [(8169, Shape::Whole(8192)), (8170, Shape::Hopeless)] {
        let mut head = Vec::from_slice(alloc, b"GET / HTTP/1.1\r\nX: ")?;
        head.extend_from_slice(vec![in alloc; b'a'; letters]?.as_slice())?;
        head.extend_from_slice(b"\r\n\r\n")?;
        assert_eq!(rt; cut_shape(alloc, head.as_slice())?, want);
    }
    for (letters, want) in [(8171, Shape::Partial), (8172, Shape::Hopeless)] {
        let mut head = Vec::from_slice(alloc, b"GET / HTTP/1.1\r\nX: ")?;
        head.extend_from_slice(vec![in alloc; b'a'; letters]?.as_slice())?;
        assert_eq!(rt; cut_shape(alloc, head.as_slice())?, want);
    }
    for (letters, want) in [(8186, Shape::Partial), (8187, Shape::Hopeless)] {
        let mut head = Vec::from_slice(alloc, b"GET /")?;
        head.extend_from_slice(vec![in alloc; b'a'; letters]?.as_slice())?;
        assert_eq!(rt; cut_shape(alloc, head.as_slice())?, want);
    }
    for (fields, end, want) in [
        (64, &b"\r\n"[..], Shape::Whole(16 + 64 * 6 + 2)),
        (65, &b"\r\n"[..], Shape::Hopeless),
        (64, &b""[..], Shape::Partial),
        (64, &b"B"[..], Shape::Hopeless),
    ] {
        let mut head = Vec::from_slice(alloc, b"GET / HTTP/1.1\r\n")?;
        for _ in 0..fields {
            head.extend_from_slice(b"A: 1\r\n")?;
        }
        head.extend_from_slice(end)?;
        assert_eq!(rt; cut_shape(alloc, head.as_slice())?, want);
    }
    Ok(())
}

#[test]
fn an_answer_is_a_response(rt: HostRuntime) -> Result<(), Fail> {
    let alloc = rt.alloc();
    let mut out = Vec::new(alloc);
    answer(alloc, 503, b"{\"memory\":true}", &mut out)?;
    assert_eq!(rt;
        out.as_slice(),
        b"HTTP/1.1 503 Service Unavailable\r\nContent-Type: application/json\r\nContent-Length: 15\r\n\r\n{\"memory\":true}".as_slice()
    );
    Ok(())
}
