// An attribute: an OID and a value.
ghost use Rattle.std.specs.Prelude.{◌≡◌};
ghost use Rattle.names.specs.Names.{Attr, attr_p};
ghost use Rattle.names.specs.Answers.{attributed, spans_p};

use fields::{Fault, Span, Thing, string_at};

// An attribute that was read: where its OID and its value stand.
#[derive(Clone, Copy)]
pub struct Attribute {
    pub oid: Span,
    pub value: Span,
}

impl Attribute {
    pub const OID_LEAST: usize = 1;

    pub const OID_MOST: usize = 16;

    pub const VALUE_LEAST: usize = 0;

    pub const VALUE_MOST: usize = 255;
}

impl Thing for Attribute {
    ghost Value = { Attr };

    ghost thing_p = { attr_p };

    #[tactic(auto, using(crate::proofs::Attributes::attr_by_spans))]
    fn past(file: &[u8], at: usize) -> Result<usize, Fault> {
        Ok(attribute_at(file, at)?.value.end)
    }
}

// The attribute at a place; the place past it is the end of its value.
#[tactic(auto, unfolding(crate::specs::Answers::spans_p))]
pub fn attribute_at(file: &[u8], at: usize) -> Result<Attribute, Fault>
    ensures { attributed result
        ≡ spans_p Attribute.OID_LEAST Attribute.OID_MOST Attribute.VALUE_LEAST Attribute.VALUE_MOST file.now at }
{
    let oid = string_at(file, at, Attribute::OID_LEAST, Attribute::OID_MOST)?;
    let value = string_at(file, oid.end, Attribute::VALUE_LEAST, Attribute::VALUE_MOST)?;
    Ok(Attribute { oid, value })
}
