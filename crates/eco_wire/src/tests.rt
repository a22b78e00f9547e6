//! Requests, routes and reply heads against texts from outside.
use crate::{
    BodyKind, Method, Next, Request, Route, RouteFault, Router, Span, next_request, reply_head,
};
use std::alloc::Global;
use std::test::Fail;

/// The next request. The tests need nothing of its contract.
fn next(bytes: &[u8]) -> Next {
    next_request(bytes)
}

fn routed(router: &Router, method: Method, path: &[u8]) -> Result<Route, RouteFault> {
    router.route(&method, path)
}

/// The head of a reply whose status has a phrase.
fn head(
    alloc: Global,
    status: u16,
    kind: BodyKind,
    len: u64,
    close: bool,
) -> Result<Vec<u8>, Fail> {
    match status {
        200 | 400 | 404 | 409 | 411 | 413 | 422 | 431 | 500 | 501 | 503 => {
            Ok(reply_head(alloc, status, kind, len, None, close)?)
        }
        405 => Ok(reply_head(alloc, 405, kind, len, Some("GET"), close)?),
        _ => Err("no such status".into()),
    }
}

/// A request with its path and body at these places, each with its length.
fn found(method: Method, path: (usize, usize), body: (u16, u16), close: bool) -> Next {
    let (start, len) = (usize::from(body.0), usize::from(body.1));
    Next::Request(Request {
        method,
        path: Span {
            start: path.0,
            len: path.1,
        },
        body: Span { start, len },
        used: start + len,
        close,
    })
}

// A request, and its method, path and body with their lengths, and whether it closes.
const REQUESTS: [(&str, Method, (usize, usize), (u16, u16), bool); 10] = [
    (
        "GET /front HTTP/1.1\r\nHost: eco\r\n\r\n",
        Method::Get,
        (4, 6),
        (34, 0),
        false,
    ),
    ("GET / HTTP/1.1\n\n", Method::Get, (4, 1), (16, 0), false),
    (
        "\r\nget / HTTP/1.1\r\n\r\n",
        Method::Other,
        (6, 1),
        (20, 0),
        false,
    ),
    (
        "HEAD / HTTP/1.1\r\n\r\n",
        Method::Other,
        (5, 1),
        (19, 0),
        false,
    ),
    ("GET / HTTP/1.0\r\n\r\n", Method::Get, (4, 1), (18, 0), true),
    (
        "GET / HTTP/1.1\r\nConnection: a,\tCLOSE \r\n\r\n",
        Method::Get,
        (4, 1),
        (41, 0),
        true,
    ),
    (
        "GET / HTTP/1.1\r\nconnection: closed\r\n\r\n",
        Method::Get,
        (4, 1),
        (38, 0),
        false,
    ),
    (
        "GET / HTTP/1.1\r\nContent-length: 002\r\n\r\nabc",
        Method::Get,
        (4, 1),
        (39, 2),
        false,
    ),
    (
        "POST /plan HTTP/1.1\r\nContent-Length: 3\r\n\r\nabc",
        Method::Post,
        (5, 5),
        (42, 3),
        false,
    ),
    (
        "GET http://h/front HTTP/1.1\r\n\r\n",
        Method::Get,
        (4, 14),
        (31, 0),
        false,
    ),
];

#[test]
fn requests_with_method_path_body_and_close(rt: HostRuntime) -> Result<(), Fail> {
    for (text, method, path, body, close) in REQUESTS {
        assert_eq!(rt; next(text.as_bytes()), found(method, path, body, close));
    }
    Ok(())
}

#[test]
fn broken_requests_have_the_status_of_the_first_step(rt: HostRuntime) -> Result<(), Fail> {
    let cases: [(&[u8], u16); 14] = [
        (b"GET /front HTTP/2.0\r\n\r\n", 400),
        (b"GET /\xff HTTP/1.1\r\n\r\n", 400),
        (b"GET / HTTP/1.1\r\nHost\r\n\r\n", 400),
        (
            b"POST / HTTP/1.1\r\nTransfer-Encoding: chunked\r\nContent-Length: 5\r\n\r\nhello",
            501,
        ),
        (
            b"GET / HTTP/1.1\r\nContent-Length: 5\r\ncontent-length: 5\r\n\r\nhello",
            400,
        ),
        (b"GET / HTTP/1.1\r\nContent-Length: +5\r\n\r\nhello", 400),
        (b"GET / HTTP/1.1\r\nContent-Length: 5a\r\n\r\nhello", 400),
        (b"GET / HTTP/1.1\r\nContent-Length:\r\n\r\n", 400),
        (
            b"GET / HTTP/1.1\r\nContent-Length: 000000000000000000005\r\n\r\nhello",
            400,
        ),
        (b"POST / HTTP/1.1\r\n\r\n", 411),
        (b"POST / HTTP/1.1\r\nContent-Length: 131073\r\n\r\n", 413),
        (
            b"GET / HTTP/1.1\r\nContent-Length: 18446744073709551616\r\n\r\n",
            413,
        ),
        (
            b"GET / HTTP/1.1\r\nContent-Length: 99999999999999999999\r\n\r\n",
            413,
        ),
        (b" GET / HTTP/1.1\r\n\r\n", 400),
    ];
    for (bytes, status) in cases {
        assert_eq!(rt; next(bytes), Next::Broken { status });
    }
    Ok(())
}

/// A request line, and so many header lines.
fn with_lines(alloc: Global, lines: u32) -> Result<String, Fail> {
    let mut text = String::new(alloc);
    text.push_str("GET / HTTP/1.1\r\n")?;
    for _ in 0..lines {
        text.push_str("a: b\r\n")?;
    }
    Ok(text)
}

#[test]
fn heads_end_at_64_lines_and_16384_bytes(rt: HostRuntime) -> Result<(), Fail> {
    let mut text = with_lines(rt.alloc(), 64)?;
    text.push_str("a:")?;
    assert_eq!(rt; next(text.as_bytes()), Next::NeedMore);
    let mut text = with_lines(rt.alloc(), 64)?;
    text.push_str("\r\n")?;
    assert_eq!(rt;
        next(text.as_bytes()),
        found(Method::Get, (4, 1), (402, 0), false)
    );
    let text = with_lines(rt.alloc(), 65)?;
    assert_eq!(rt; next(text.as_bytes()), Next::Broken { status: 431 });

    let mut text = String::new(rt.alloc());
    text.push_str("GET /")?;
    for _ in 0..16_378 {
        text.push('a')?;
    }
    assert_eq!(rt; next(text.as_bytes()), Next::NeedMore);
    text.push('a')?;
    assert_eq!(rt; next(text.as_bytes()), Next::Broken { status: 431 });
    text.push_str(" HTTP/1.1\r\n\r\n")?;
    assert_eq!(rt; next(text.as_bytes()), Next::Broken { status: 431 });
    Ok(())
}

#[test]
fn a_request_comes_with_its_last_byte_and_stays_with_more(rt: HostRuntime) -> Result<(), Fail> {
    let text = "POST /hold HTTP/1.1\r\nContent-Length: 4\r\n\r\nbody";
    for end in 0..text.len() {
        let Some(front) = text.as_bytes().get(..end) else {
            continue;
        };
        assert_eq!(rt; next(front), Next::NeedMore);
    }
    let wanted = found(Method::Post, (5, 5), (42, 4), false);
    assert_eq!(rt; next(text.as_bytes()), wanted);
    let mut longer = String::new(rt.alloc());
    longer.push_str(text)?;
    longer.push_str("GET / HTTP/1.1\r\n\r\n")?;
    assert_eq!(rt; next(longer.as_bytes()), wanted);
    Ok(())
}

const ROUTES: [(Method, &[u8], Route); 12] = [
    (Method::Get, b"/front", Route::Front),
    (Method::Get, b"/spares", Route::Spares),
    (
        Method::Get,
        b"/orders/inv1",
        Route::Order(Span { start: 8, len: 4 }),
    ),
    (
        Method::Get,
        b"/orders/a%2Fb",
        Route::Order(Span { start: 8, len: 5 }),
    ),
    (Method::Get, b"/revision/0/def", Route::Revision(0)),
    (Method::Get, b"/revision/8192/def", Route::Revision(8192)),
    (
        Method::Get,
        b"/revision/18446744073709551615/def",
        Route::Revision(u64::MAX),
    ),
    (Method::Post, b"/plan", Route::Plan),
    (Method::Post, b"/commit", Route::Commit),
    (Method::Post, b"/withdraw", Route::Withdraw),
    (Method::Post, b"/hold", Route::Hold),
    (Method::Post, b"/release", Route::Release),
];

// Paths that other methods have.
const WRONG_METHODS: [(Method, &[u8], Method); 4] = [
    (Method::Post, b"/front", Method::Get),
    (Method::Other, b"/front", Method::Get),
    (Method::Post, b"/orders/inv1", Method::Get),
    (Method::Get, b"/hold", Method::Post),
];

const NO_PATHS: [(Method, &[u8]); 14] = [
    (Method::Get, b"/none"),
    (Method::Get, b"/"),
    (Method::Get, b"/front/"),
    (Method::Get, b"/front?x"),
    (Method::Get, b"http://h/front"),
    (Method::Get, b"/orders/"),
    (Method::Get, b"/orders/a/b"),
    (Method::Get, b"/orders/\xff"),
    (Method::Get, b"/revision//def"),
    (Method::Get, b"/revision/01/def"),
    (Method::Get, b"/revision/+1/def"),
    (Method::Get, b"/revision/18446744073709551616/def"),
    (Method::Post, b"/revision/x/def"),
    (Method::Get, b"/revision/1"),
];

#[test]
fn paths_have_the_routes_of_the_table(rt: HostRuntime) -> Result<(), Fail> {
    let router = Router::new(rt.alloc())?;
    for (method, path, route) in ROUTES {
        assert_eq!(rt; routed(&router, method, path), Ok(route));
    }
    for (method, path, allow) in WRONG_METHODS {
        let wrong = RouteFault::WrongMethod { allow };
        assert_eq!(rt; routed(&router, method, path), Err(wrong));
    }
    for (method, path) in NO_PATHS {
        assert_eq!(rt; routed(&router, method, path), Err(RouteFault::NoPath));
    }
    Ok(())
}

// A status, what the body is, its length, whether the link closes, and the head.
const HEADS: [(u16, BodyKind, u64, bool, &str); 13] = [
    (
        200,
        BodyKind::Json,
        11,
        false,
        "HTTP/1.1 200 OK\r\nContent-Type: application/json\r\nContent-Length: 11\r\n\r\n",
    ),
    (
        200,
        BodyKind::Plain,
        u64::MAX,
        true,
        "HTTP/1.1 200 OK\r\nContent-Type: text/plain\r\nContent-Length: 18446744073709551615\r\nConnection: close\r\n\r\n",
    ),
    (
        405,
        BodyKind::Json,
        13,
        false,
        "HTTP/1.1 405 Method Not Allowed\r\nContent-Type: application/json\r\nContent-Length: 13\r\nAllow: GET\r\n\r\n",
    ),
    (
        400,
        BodyKind::Json,
        0,
        false,
        "HTTP/1.1 400 Bad Request\r\n",
    ),
    (404, BodyKind::Json, 0, false, "HTTP/1.1 404 Not Found\r\n"),
    (409, BodyKind::Json, 0, false, "HTTP/1.1 409 Conflict\r\n"),
    (
        411,
        BodyKind::Json,
        0,
        false,
        "HTTP/1.1 411 Length Required\r\n",
    ),
    (
        413,
        BodyKind::Json,
        0,
        false,
        "HTTP/1.1 413 Content Too Large\r\n",
    ),
    (
        422,
        BodyKind::Json,
        0,
        false,
        "HTTP/1.1 422 Unprocessable Content\r\n",
    ),
    (
        431,
        BodyKind::Json,
        0,
        false,
        "HTTP/1.1 431 Request Header Fields Too Large\r\n",
    ),
    (
        500,
        BodyKind::Json,
        0,
        false,
        "HTTP/1.1 500 Internal Server Error\r\n",
    ),
    (
        501,
        BodyKind::Json,
        0,
        false,
        "HTTP/1.1 501 Not Implemented\r\n",
    ),
    (
        503,
        BodyKind::Json,
        0,
        false,
        "HTTP/1.1 503 Service Unavailable\r\n",
    ),
];

#[test]
fn reply_heads_have_status_type_length_allow_and_close(rt: HostRuntime) -> Result<(), Fail> {
    for (status, kind, len, close, wanted) in HEADS {
        let head = head(rt.alloc(), status, kind, len, close)?;
        assert!(rt; head.starts_with(wanted.as_bytes()), "at {status}");
    }
    Ok(())
}
