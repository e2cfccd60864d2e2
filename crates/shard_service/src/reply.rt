//! Responses with the answers of `shard_server`.
ghost use Rattle.std.specs.Prelude.{◌≡◌, ◌⊎◌};
ghost use Rattle.hyper.specs.Response.{body_of, head_of};
ghost use Rattle.shard_service.specs.Reply.{Gives, IsRefusal};

use bytes::Bytes;
use channel_store::{is_shard_name, served_path};
use http_body_util::Full;
use hyper::header::{self, HeaderMap, HeaderMapError, HeaderValue};
use hyper::{Response, StatusCode};
use shard_server::Served;
use std::alloc::Global;

// What a response to a GET or a HEAD says beside its status and its body.
#[derive(Clone, Copy)]
pub(crate) struct Manner {
    // The connection is closed behind it.
    pub(crate) is_last: bool,
    // It has no body, and so says itself how long the file is.
    pub(crate) is_head: bool,
}

// The response with an answer to a request for a path; want of memory makes it one of status 500.
pub(crate) fn reply(
    alloc: Global,
    served: Served,
    path: &str,
    manner: Manner,
) -> Response<Full<Bytes>>
    ensures { Gives served.status served.body result ⊎ IsRefusal result }
{
    let size = served.size;
    let Ok(status) = StatusCode::from_u16(served.status) else {
        return refusal(alloc);
    };
    let Ok(body) = Bytes::from_vec(served.body) else {
        return refusal(alloc);
    };
    let mut response = plain(alloc, status, body);
    if set_fields(alloc, &mut response, size, path, manner).is_err() {
        return refusal(alloc);
    }
    response
}

// A response without fields.
fn plain(alloc: Global, status: StatusCode, body: Bytes) -> Response<Full<Bytes>>
    ensures { Gives status body result }
{
    let mut response = Response::new(alloc, Full::new(body));
    *response.status_mut() = status;
    response
}

// The response where memory ran out.
pub(crate) fn refusal(alloc: Global) -> Response<Full<Bytes>>
    ensures { IsRefusal result }
{
    plain(
        alloc,
        StatusCode::INTERNAL_SERVER_ERROR,
        Bytes::from_static(b""),
    )
}

// Sets the fields of a response, which keeps its status and its body.
fn set_fields(
    alloc: Global,
    response: &mut Response<Full<Bytes>>,
    size: u64,
    path: &str,
    manner: Manner,
) -> Result<(), HeaderMapError>
    ensures status { (head_of response.new).status ≡ (head_of response.old).status }
    ensures body { body_of response.new ≡ body_of response.old }
{
    let is_found = response.status() == StatusCode::OK;
    let fields = response.headers_mut();
    if is_found {
        set_file_fields(alloc, fields, size, path, manner.is_head)?;
    }
    if manner.is_last {
        fields.insert(header::CONNECTION, HeaderValue::from_static("close"))?;
    }
    Ok(())
}

// Sets what a response says of a file.
fn set_file_fields(
    alloc: Global,
    fields: &mut HeaderMap<HeaderValue>,
    size: u64,
    path: &str,
    is_head: bool,
) -> Result<(), HeaderMapError> {
    let kind = HeaderValue::from_static("application/octet-stream");
    fields.insert(header::CONTENT_TYPE, kind)?;
    fields.insert(header::CACHE_CONTROL, kept(path))?;
    if is_head {
        let size = HeaderValue::from_u64(alloc, size)?;
        fields.insert(header::CONTENT_LENGTH, size)?;
    }
    Ok(())
}

// How long a file may be kept: a shard for ever, as its name is its digest.
fn kept(path: &str) -> HeaderValue {
    match served_path(path) {
        Some(name) if is_shard_name(name) => {
            HeaderValue::from_static("public, max-age=31536000, immutable")
        }
        _ => HeaderValue::from_static("no-cache"),
    }
}
