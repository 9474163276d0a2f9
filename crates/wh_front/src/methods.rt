//! Which methods a resource has.

ghost use Rattle.std.specs.Prelude.{◌≡◌};
ghost use Rattle.http.specs.Method.{is_among};
ghost use Rattle.http_header.specs.FieldValue.{plain_value};
ghost use Rattle.wh_front.specs.Access.{methods_in, part_methods, telling, method_names, methods_text};

use http::HeaderValue;
use wh_routes::{InstancePart, Route};

/// The methods of a resource. What has GET has HEAD too.
#[derive(Clone, Copy, Debug, PartialEq, Eq)]
pub enum Methods {
    /// GET.
    Get,
    /// PUT.
    Put,
    /// POST.
    Post,
    /// GET and PUT.
    GetPut,
    /// GET and POST.
    GetPost,
    /// GET, PUT and DELETE.
    GetPutDelete,
}

/// Returns the methods of a resource: GET of what tells something, PUT of what has a place to be put at, POST of what is
/// done anew each time, DELETE of what goes.
pub fn methods_of(to: &Route<'_>) -> Methods
    ensures { result ≡ methods_in to.now }
{
    match to {
        Route::Page | Route::Health | Route::Ready | Route::Metrics | Route::Report => Methods::Get,
        Route::Epoch | Route::Scan | Route::Stop => Methods::Post,
        Route::Modules | Route::Exports(_) | Route::Instances => Methods::Get,
        Route::Module(_) => Methods::GetPutDelete,
        Route::Instance(_, part) => methods_of_part(part),
    }
}

// The methods of a part of an instance.
fn methods_of_part(part: &InstancePart) -> Methods
    ensures { result ≡ part_methods part.now }
{
    match part {
        InstancePart::Itself => Methods::GetPutDelete,
        InstancePart::Calls => Methods::GetPost,
        InstancePart::Call(_) | InstancePart::Forgotten => Methods::GetPut,
        InstancePart::Fuel(_) => Methods::Put,
        InstancePart::Cancel(_) | InstancePart::Retry(_) => Methods::Post,
        InstancePart::Output | InstancePart::Memory | InstancePart::Transcript => Methods::Get,
    }
}

// Whether a method tells something.
fn is_get(method: &[u8]) -> bool
    ensures { result ≡ is_among telling method.now }
{
    method == b"GET".as_slice() || method == b"HEAD".as_slice()
}

impl Methods {
    /// Returns the methods' names, as the value of an `Allow` field.
    pub fn value(self) -> HeaderValue
        ensures { result ≡ plain_value (methods_text self) }
    {
        match self {
            Methods::Get => HeaderValue::from_static("GET, HEAD"),
            Methods::Put => HeaderValue::from_static("PUT"),
            Methods::Post => HeaderValue::from_static("POST"),
            Methods::GetPut => HeaderValue::from_static("GET, HEAD, PUT"),
            Methods::GetPost => HeaderValue::from_static("GET, HEAD, POST"),
            Methods::GetPutDelete => HeaderValue::from_static("GET, HEAD, PUT, DELETE"),
        }
    }

    /// Returns whether a method is one of these.
    pub fn has(self, method: &[u8]) -> bool
        ensures { result ≡ is_among (method_names self) method.now }
    {
        match self {
            Methods::Get => is_get(method),
            Methods::Put => method == b"PUT".as_slice(),
            Methods::Post => method == b"POST".as_slice(),
            Methods::GetPut => is_get(method) || method == b"PUT".as_slice(),
            Methods::GetPost => is_get(method) || method == b"POST".as_slice(),
            Methods::GetPutDelete => {
                is_get(method) || method == b"PUT".as_slice() || method == b"DELETE".as_slice()
            }
        }
    }
}
