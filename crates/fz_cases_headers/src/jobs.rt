//! The checks of a job of one HDU.
use crate::asserts::alike;
use crate::files::{PACKED, SMALL, fault_at, file_of, one_block, options_for};
use fz_base::{Fault, Kind, Place};
use fz_block::BLOCK_LEN;
use fz_checks::{fill_check, image_to_cut, image_to_unpack, missing_hdu, plan_to_pack, tile_kind};
use fz_grid::Region;
use fz_head::{CodecWord, codec_name, to_empty_primary};
use fz_tile::{Codec, TileFault};
use std::test::Fail;

#[test]
fn checks_of_an_image(rt: HostRuntime) -> Result<(), Fail> {
    let alloc = rt.alloc();
    let options = options_for(CodecWord::Rice, false);
    let mut buf = [0; 2880];
    let header = one_block(alloc, &file_of(&SMALL, &[]), 0, &mut buf)?;
    let plan = plan_to_pack(&buf, &header, &options);
    assert!(rt; matches!(plan, Ok(Some(_))));
    alike(&rt, image_to_unpack(&buf, &header, false), Ok(None));
    // Its data are the 16 bytes from 2880 on.
    let mut fill = [0; 8];
    let filled = fill_check(&header, &fill);
    fill[5] = 1;
    let fault = Fault {
        hdu: 0,
        at: Place::Byte(2901),
        kind: Kind::DataFill,
    };
    alike(
        &rt,
        (filled, fill_check(&header, &fill)),
        (Ok(()), Err(fault)),
    );
    Ok(())
}

#[test]
fn checks_of_a_packed_image(rt: HostRuntime) -> Result<(), Fail> {
    let alloc = rt.alloc();
    let options = options_for(CodecWord::Rice, false);
    let mut buf = [0; 2880];
    let header = one_block(alloc, &file_of(&PACKED, &[]), 1, &mut buf)?;
    let answer = plan_to_pack(&buf, &header, &options);
    alike(&rt, answer, Err(fault_at(12, Kind::AlreadyPacked)));
    let image = image_to_unpack(&buf, &header, true);
    assert!(rt; matches!(image, Ok(Some(_))));
    let inside = Region {
        n: 2,
        lo: [1, 1, 0, 0, 0, 0, 0, 0, 0],
        len: [3, 1, 0, 0, 0, 0, 0, 0, 0],
    };
    let image = image_to_cut(&buf, &header, true, &inside);
    assert!(rt; image.is_ok());
    let past = Region {
        len: [3, 2, 0, 0, 0, 0, 0, 0, 0],
        ..inside
    };
    let past = image_to_cut(&buf, &header, true, &past);
    let other = Region { n: 1, ..inside };
    let other = image_to_cut(&buf, &header, true, &other);
    alike(
        &rt,
        (past, other),
        (
            Err(fault_at(24, Kind::OutOfBox)),
            Err(fault_at(22, Kind::OutOfBox)),
        ),
    );
    Ok(())
}

#[test]
fn small_calls(rt: HostRuntime) -> Result<(), Fail> {
    let fault = Fault {
        hdu: 7,
        at: Place::Byte(8640),
        kind: Kind::NotPacked,
    };
    let missing = (missing_hdu(Some(7), 3, 8640), missing_hdu(None, 3, 8640));
    alike(&rt, missing, (fault, Fault { hdu: 3, ..fault }));
    let names = (tile_kind(TileFault::LineList), codec_name(Codec::Plain));
    alike(&rt, names, (Kind::LineList, "NOCOMPRESS"));
    let mut out = [0; 2880];
    let len = to_empty_primary(&mut out);
    alike(&rt, (len, &out[320..323]), (BLOCK_LEN, b"END".as_slice()));
    Ok(())
}
