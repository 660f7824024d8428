// Requests and their faults as they are told.
use http_in::{HttpFault, Request};
use std::alloc::{AllocError, Global};

/// Adds a line with the method, the target and the body of a request, and whether it asks to close.
pub fn add_line(told: &mut String, request: &Request) -> Result<(), AllocError> {
    let body = str::from_utf8(request.body.as_slice()).unwrap_or("?");
    let close = if request.close { " close" } else { "" };
    let (method, target) = (request.method.as_str(), request.target.as_str());
    write!(told, "{method} {target} {body}{close}\n")
}

/// Adds the path, the query, the parameters and the session of a request, with a bar behind each.
pub fn add_parts(told: &mut String, request: &Request) -> Result<(), AllocError> {
    let path = match &request.path {
        Some(path) => path.as_str(),
        None => "none",
    };
    let query = match &request.query {
        Some(query) => query.as_str(),
        None => "none",
    };
    write!(told, "{path}|{query}|")?;
    for param in request.params.as_slice() {
        write!(told, "({},{})", param.name.as_str(), param.value.as_str())?;
    }
    write!(told, "|{}|", request.cookie.as_str())
}

/// The fields of a request, with a bar behind each.
pub fn fields(alloc: Global, request: &Request) -> Result<String, AllocError> {
    let mut told = String::new(alloc);
    for field in request.fields.as_slice() {
        let value = str::from_utf8(field.value.as_slice()).unwrap_or("no text");
        write!(told, "{}:{value}|", field.name.as_str())?;
    }
    Ok(told)
}

pub fn name_of(fault: HttpFault) -> &'static str {
    match fault {
        HttpFault::HeadTooLarge => "HeadTooLarge",
        HttpFault::BadHead => "BadHead",
        HttpFault::WrongVersion => "WrongVersion",
        HttpFault::ChunkedRequest => "ChunkedRequest",
        HttpFault::BadLength => "BadLength",
        HttpFault::BodyTooLarge => "BodyTooLarge",
        HttpFault::CutOff => "CutOff",
        HttpFault::ReadFault => "ReadFault",
    }
}
