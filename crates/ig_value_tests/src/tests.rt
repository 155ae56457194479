ghost use Rattle.ig_value.specs.Limits.{Fits};

use ig_base::{Boxed, Items, Text};
use ig_value::*;
use std::alloc::Global;
use std::test::Fail;

fn list<T: Drop>(alloc: Global, item: T) -> Result<Items<T>, Fail> {
    let mut items = Vec::new(alloc);
    items.push(item)?;
    Ok(Items::new(items))
}

/// A text inside this many levels of collections, maps and arrays, by turns.
fn nested(alloc: Global, levels: u32) -> Result<Value, Fail> {
    let mut value = Value::Str(Text::new(String::from_str(alloc, "é")?));
    for level in 0..levels {
        value = match level % 4 {
            0 => Value::Collection {
                kind: 1,
                items: list(alloc, value)?,
            },
            1 => Value::Map {
                kind: 1,
                pairs: list(alloc, (value, Value::Null))?,
            },
            2 => Value::Objects {
                type_id: 7,
                items: list(alloc, value)?,
            },
            _ => Value::Enums {
                type_id: 7,
                items: list(alloc, value)?,
            },
        };
    }
    Ok(value)
}

#[test]
fn limits_end_at_32_levels(rt: HostRuntime) -> Result<(), Fail> {
    let deepest = nested(rt.alloc(), 31)?;
    assert!(rt; deepest.keeps_to_limits());
    assert_eq!(rt; deepest.depth(), 32);
    assert!(rt; !nested(rt.alloc(), 32)?.keeps_to_limits());
    Ok(())
}

#[test]
fn copies_are_the_same(rt: HostRuntime) -> Result<(), Fail> {
    let value = nested(rt.alloc(), 5)?;
    assert!(rt; value.copy(rt.alloc())?.same(&value));
    assert!(rt; !value.same(&nested(rt.alloc(), 4)?));
    Ok(())
}

/// The fault of building an object with this field, of identifier 97, if any.
fn fault_of(
    alloc: Global,
    bits: u16,
    type_id: i32,
    field: Value,
) -> Result<Option<BuildFault>, Fail>
    requires { Fits field }
{
    let mut fields = Vec::new(alloc);
    fields.push((97, field))?;
    match Object::build(alloc, bits, type_id, fields) {
        Ok(_) => Ok(None),
        Err(fault) => Ok(Some(fault)),
    }
}

/// Flags, a type, the levels around a field's text, and the fault of building an object of them.
static FAULTS: [(u16, i32, u32, Option<BuildFault>); 9] = [
    (2, 0, 31, Some(BuildFault::Bits)),
    (32, 112, 1, Some(BuildFault::Bits)),
    (67, 112, 1, Some(BuildFault::Bits)),
    (1, 0, 31, Some(BuildFault::TypeId)),
    (0, 0, 1, Some(BuildFault::TypeId)),
    (65, 112, 31, Some(BuildFault::Deep)),
    (0, -1, 31, Some(BuildFault::Deep)),
    (65, 112, 30, None),
    (0xFFC1, -1, 1, None),
];

#[test]
fn objects_are_refused_in_order(rt: HostRuntime) -> Result<(), Fail> {
    for (bits, type_id, levels, fault) in &FAULTS {
        let field = nested(rt.alloc(), *levels)?;
        assert!(rt; field.keeps_to_limits());
        assert_eq!(rt; fault_of(rt.alloc(), *bits, *type_id, field)?, *fault);
    }
    Ok(())
}

/// An object of type 112 with this shape and one field, or without fields.
fn shaped(alloc: Global, shape: Shape, has_field: bool) -> Result<Object, Fail> {
    let mut fields = Vec::new(alloc);
    if has_field {
        fields.push(Value::Null)?;
    }
    Ok(Record {
        bits: 1,
        type_id: 112,
        shape,
        fields: Items::new(fields),
    })
}

/// Whether such an object keeps to the limits, named or compact.
fn shape_fits(alloc: Global, is_compact: bool, has_field: bool) -> Result<bool, Fail> {
    let shape = if is_compact {
        Shape::Compact(97)
    } else {
        Shape::Named(list(alloc, 97)?)
    };
    let object = shaped(alloc, shape, has_field)?;
    Ok(Value::Object(Boxed::new(alloc, object)?).keeps_to_limits())
}

#[test]
fn a_shape_is_that_of_the_fields(rt: HostRuntime) -> Result<(), Fail> {
    assert!(rt; shape_fits(rt.alloc(), false, true)?);
    assert!(rt; !shape_fits(rt.alloc(), false, false)?);
    assert!(rt; shape_fits(rt.alloc(), true, true)?);
    assert!(rt; !shape_fits(rt.alloc(), true, false)?);
    Ok(())
}

/// An object of type 112 with this field, of identifier 97, as it is built.
fn built(alloc: Global, field: Value) -> Result<Object, Fail>
    requires { Fits field }
{
    let mut fields = Vec::new(alloc);
    fields.push((97, field))?;
    Ok(Object::build(alloc, 1, 112, fields)?)
}

#[test]
fn an_object_is_built_of_its_fields(rt: HostRuntime) -> Result<(), Fail> {
    let field = Value::Null;
    assert!(rt; field.keeps_to_limits());
    let object = Boxed::new(rt.alloc(), built(rt.alloc(), field)?)?;
    let named = shaped(rt.alloc(), Shape::Named(list(rt.alloc(), 97)?), true)?;
    let value = Value::Object(object);
    assert!(rt; value.keeps_to_limits());
    assert!(rt; value.same(&Value::Object(Boxed::new(rt.alloc(), named)?)));
    assert_eq!(rt; value.depth(), 2);
    Ok(())
}
