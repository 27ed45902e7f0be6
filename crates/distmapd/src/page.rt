//! The answers to monitoring clients, over HTTP (RFC 9112).

use crate::metrics::figures_text;
use dist_epmd_server::Server;
use httparse::{EMPTY_HEADER, Request};
use std::alloc::{AllocError, Global};

// The most bytes of a request's head that are read before it is answered, whole or not. Our own choice.
const HEAD: usize = 4096;

// The most fields of a head: a request with more is answered at once. Our own choice.
const FIELDS: usize = 64;

// The path of a target, without the slash at its front and without a query. In an absolute target it follows the host (RFC 9112, section
// 3.2.2).
fn path_of(target: &str) -> &str {
    let (target, _) = target.split_once('?').unwrap_or((target, ""));
    if let Some(path) = target.strip_prefix('/') {
        return path;
    }
    let (_, rest) = target.split_once("://").unwrap_or(("", ""));
    let (_, path) = rest.split_once('/').unwrap_or(("", ""));
    path
}

// The status and the body of the page at a path.
fn page_at(
    alloc: Global,
    path: &str,
    server: &Server,
) -> Result<(&'static str, String), AllocError> {
    let (status, body) = match path {
        "metrics" => return Ok(("200 OK", figures_text(alloc, server)?)),
        "health" => ("200 OK", "alive\n"),
        "ready" if server.is_stuck() => (
            "503 Service Unavailable",
            "no descriptor or no memory is left\n",
        ),
        "ready" => ("200 OK", "ready\n"),
        _ => ("404 Not Found", "/metrics, /ready and /health are here\n"),
    };
    Ok((status, String::from_str(alloc, body)?))
}

/// The answer to a request by its first bytes, after which the connection is closed. `None`: its head goes on. One that is malformed or
/// too long is answered by what it begins with. HEAD does not want the body.
pub fn answer_to(
    alloc: Global,
    head: &[u8],
    server: &Server,
) -> Result<Option<String>, AllocError> {
    let mut fields = [EMPTY_HEADER; FIELDS];
    let mut request = Request::new(&mut fields);
    let goes_on = request.parse(head).is_ok_and(|status| status.is_partial());
    if goes_on && head.len() < HEAD {
        return Ok(None);
    }
    let (status, mut body) = match request.method {
        Some("GET" | "HEAD") => page_at(alloc, path_of(request.path.unwrap_or("")), server)?,
        _ => {
            let why = String::from_str(alloc, "GET and HEAD alone are served\n")?;
            ("405 Method Not Allowed", why)
        }
    };
    let length = body.len();
    if request.method == Some("HEAD") {
        body.clear();
    }
    let answer = format!(in alloc;
        "HTTP/1.1 {status}\r\nContent-Type: text/plain; version=0.0.4; charset=utf-8\r\nContent-Length: {length}\r\n\
         Allow: GET, HEAD\r\nConnection: close\r\n\r\n{body}"
    )?;
    Ok(Some(answer))
}
