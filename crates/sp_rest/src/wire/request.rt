ghost use Rattle.std.specs.Prelude.{◌≡◌, ◌≤◌, length};
ghost use Rattle.sp_rest.specs.Wire.Request.{IsPossible};

use sp_base::bytes::Bytes;
use sp_base::items::Items;
use std::marker::Model;

/// A header field.
#[derive(Debug, Drop)]
pub struct Field {
    /// As it was written; names compare without regard to ASCII case.
    pub name: Bytes,
    /// Without the spaces and tabs around it.
    pub value: Bytes,
}

/// A request over HTTP/1.0 or HTTP/1.1, which contracts see as its parts. Some bytes begin with it,
/// so it keeps the limits: at most 64 fields, and a body of at most 8 MiB.
#[derive(Debug, Drop)]
pub struct Request {
    method: Bytes,
    target: Bytes,
    fields: Items<Field>,
    body: Bytes,
}

impl Model for Request {
    ghost use Rattle.sp_rest.specs.Wire.Parts as parts;
    ghost use Rattle.sp_rest.specs.Wire.Request.{IsPossible};

    ghost Value = { parts.Request };

    ghost view = { λ r. record { method = r.method; target = r.target; fields = r.fields; body = r.body } };

    ghost invariant = { λ r. IsPossible (record { method = r.method; target = r.target; fields = r.fields; body = r.body }) };
}

impl Request {
    /// The request of these parts, which some bytes begin with.
    pub fn of(method: Bytes, target: Bytes, fields: Items<Field>, body: Bytes) -> Request
        requires { IsPossible (record { method = method; target = target; fields = fields; body = body }) }
        ensures { result ≡ record { method = method; target = target; fields = fields; body = body } }
    {
        Request {
            method,
            target,
            fields,
            body,
        }
    }

    /// The method, as it was written.
    pub fn method(&self) -> &[u8]
        ensures { result.now ≡ self.now.method }
    {
        self.method.as_slice()
    }

    /// The path and the query, as they were written.
    pub fn target(&self) -> &[u8]
        ensures { result.now ≡ self.now.target }
    {
        self.target.as_slice()
    }

    /// The fields in the order in which they came.
    #[tactic(auto, using(crate::proofs::Possible::fields_bound))]
    pub fn fields(&self) -> &[Field]
        ensures value { result.now ≡ self.now.fields }
        ensures bound { length self.now.fields ≤ 64 }
    {
        self.fields.as_slice()
    }

    /// As many bytes as the field Content-Length says, and none without it.
    #[tactic(auto, using(crate::proofs::Possible::body_bound))]
    pub fn body(&self) -> &[u8]
        ensures value { result.now ≡ self.now.body }
        ensures bound { length self.now.body ≤ 8388608 }
    {
        self.body.as_slice()
    }
}

/// What the front of some bytes is.
#[derive(Debug, Drop)]
pub enum Cut {
    /// A whole request; `used` is its length in bytes, with its body.
    Whole { request: Request, used: usize },
    /// No request yet, but more bytes can make it one, or they end within the target, which is
    /// tested for UTF-8 once it has ended, and are fewer than 8,192.
    Partial,
    /// No request, whatever bytes follow.
    Hopeless,
}
