// A record of a script.
ghost use Rattle.std.specs.Prelude.{◌≤◌, ◌≡◌, Some, length, IfOk};
ghost use Rattle.wire.specs.Check.{first_refusal};
ghost use Rattle.wire.specs.Refusal.{number_answered};
ghost use Rattle.script.specs.Kinds.{kind_of, body_length};
ghost use Rattle.script.specs.Checks.{record_checks};

use crate::kinds::Kind;
use wire::refusal::Refusal;

// A record whose body is whole.
#[derive(Clone, Copy)]
pub struct Record<'a> {
    pub kind: Kind,
    // the bytes after the kind: they begin with the body
    pub body: &'a [u8],
    ghost whole: { body_length (Some kind) ≤ length body.now },
}

// The record of this kind whose body begins these bytes, or the first of 23, 24 and 25 that refuses it.
pub fn record_of<'a>(begun: bool, byte: u8, body: &'a [u8]) -> Result<Record<'a>, Refusal>
    ensures refused { number_answered result ≡ first_refusal (record_checks begun (kind_of byte) (length body.now)) }
    ensures taken { IfOk result (λ r. (Some r.kind ≡ kind_of byte) × (r.body.now ≡ body.now)) }
{
    let kind = Kind::try_from(byte)?;
    if body.len() < kind.body_length() {
        return Err(Refusal::BodyCutOff);
    }
    // a second segment, or a first record that is none
    if begun == (kind == Kind::NewSegment) {
        return Err(Refusal::NotOneSegment);
    }
    Ok(Record { kind, body })
}
