//! Enums, read up to their variant and then by their content.

use crate::checks::ends_here;
use cbor_de::{Deserializer, SliceRead};
use cbor_io::error::{Error, Result as Answer};
use test_checks::{Verdict, is_refused};

const NAMES: &'static [&'static str] = &["Unit", "NewType"];

fn unit(de: &mut Deserializer<SliceRead<'_>>) -> Answer<usize> {
    let access = de.variant(NAMES)?;
    let index = access.index();
    access.unit()?;
    Ok(index)
}

fn newtype(de: &mut Deserializer<SliceRead<'_>>) -> Answer<(usize, i32)> {
    let access = de.variant(NAMES)?;
    let index = access.index();
    let part = access.newtype::<i32>()?;
    Ok((index, part))
}

#[test]
fn reports_the_variant(rt: HostRuntime) -> Verdict {
    let alloc = rt.alloc();
    let mut de = Deserializer::from_slice(alloc, b"\x64Unit\x82\x01\x0a");
    assert!(rt; unit(&mut de)? == 0);
    assert!(rt; newtype(&mut de)? == (1, 10));
    ends_here(&mut de)
}

#[test]
fn leaves_an_enum_for_an_error(rt: HostRuntime) -> Verdict {
    let alloc = rt.alloc();
    let mut de = Deserializer::from_slice(alloc, b"\xc1\x82\x01\x18\x2a");
    let access = de.variant(&["Empty", "Number"])?;
    let e = access.refuse(Error::message(alloc, "no such variant"));
    is_refused(Answer::<()>::Err(e), "no such variant")?;
    Ok(())
}
