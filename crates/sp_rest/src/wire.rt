//! The bytes of HTTP: requests are cut from them, and responses appended to them. Nothing here
//! knows what a request asks of the spool or what an answer says.
mod completion;
pub mod cut;
mod head;
mod length;
pub mod request;
pub mod response;
#[cfg(test)]
mod tests;
