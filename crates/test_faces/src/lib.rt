//! Tests of HTTP: what a request asks for, the bytes of its answer, and one connection, served or cut off.
#![tactic(auto)]

/// The answer of status 200 with this body.
#[cfg(test)]
macro_rules! ok {
    ($body:expr) => {
        ("200 OK", $body)
    };
}

#[cfg(test)]
mod cases;
#[cfg(test)]
mod connections;
#[cfg(test)]
mod requests;
#[cfg(test)]
mod responses;
