//! Writing the text of a description of a type.

ghost use Rattle.std.specs.Prelude.{◌≡◌, ◌++◌, codes, OnOk};
ghost use Rattle.ig_text.specs.DescriptionText as descriptions;

use crate::put::{PutText, put_items};
use ig_base::{NoMemory, Octets};
use ig_types::{FieldMeta, Literal, SchemaMeta, TypeMeta};

impl PutText for FieldMeta {
    ghost text = { descriptions.field_text };

    fn put(&self, out: &mut Octets) -> Result<(), NoMemory> {
        self.name.put(out)?;
        out.push(b'=')?;
        self.kind.put(out)?;
        out.push(b'/')?;
        self.id.put(out)
    }
}

impl PutText for Literal {
    ghost text = { descriptions.literal_text };

    fn put(&self, out: &mut Octets) -> Result<(), NoMemory> {
        self.name.put(out)?;
        out.push(b'=')?;
        self.ordinal.put(out)
    }
}

impl PutText for SchemaMeta {
    ghost text = { descriptions.schema_text };

    fn put(&self, out: &mut Octets) -> Result<(), NoMemory> {
        self.id.put(out)?;
        out.append(b"=[")?;
        put_items(self.ids.as_slice(), b']', out)
    }
}

impl PutText for TypeMeta {
    ghost text = { descriptions.description_text };

    fn put(&self, out: &mut Octets) -> Result<(), NoMemory> {
        put_head(self, out)?;
        put_braced(self.fields.as_slice(), out)?;
        put_braced(self.literals.as_slice(), out)?;
        put_braced(self.schemas.as_slice(), out)
    }
}

/// Appends what stands before the lists.
fn put_head(meta: &TypeMeta, out: &mut Octets) -> Result<(), NoMemory>
    ensures { OnOk result (out.new ≡ out.old ++ (codes "type:" ++ descriptions.head_text meta.now)) }
{
    out.append(b"type:")?;
    meta.type_id.put(out)?;
    out.push(b':')?;
    meta.name.put(out)?;
    out.push(b':')?;
    meta.affinity.put(out)?;
    out.push(b':')?;
    put_is_enum(meta.is_enum, out)
}

/// Appends whether a type is an enum.
fn put_is_enum(is_enum: bool, out: &mut Octets) -> Result<(), NoMemory>
    ensures { OnOk result (out.new ≡ out.old ++ descriptions.enum_text is_enum) }
{
    if is_enum {
        out.push(b'1')
    } else {
        out.push(b'0')
    }
}

/// Appends parts between braces.
fn put_braced<T: PutText>(parts: &[T], out: &mut Octets) -> Result<(), NoMemory>
    ensures { OnOk result (out.new ≡ out.old ++ descriptions.braced T.text parts.now) }
{
    out.push(b'{')?;
    put_items(parts, b'}', out)
}
