//! What `drill` makes of a few rows: no code runs.
ghost use Rattle.std.specs.Prelude.{◌≡◌, ◌*◌, drop};
ghost use Rattle.fz_head.specs.declared.options.CodecWord.{CodecWord};
ghost use Rattle.fz_files.specs.Drill.{drill_hdu, drill_lines, drill_pixels};
ghost use Rattle.fz_files.specs.DrillRows.{row_32, six_codec, six_codes, six_lines, six_plan};
ghost use Rattle.fz_files.specs.Packed.{array_of, tile_codes};

/// The lines of `drill` for 6 rows, and what is written for each row with each codec, are those that
/// `specs/DrillRows.antt` writes out; and so are the pixels of row 32, whose square is above 999.
pub fn drill_rows_law()
    ensures tiles { (codec : CodecWord) → tile_codes (six_plan (six_codec codec))
        (array_of (six_plan (six_codec codec)) (drill_hdu 6).payload) ≡ six_codes codec }
    ensures lines { drill_lines 6 ≡ six_lines }
    ensures later { drop (256 * 32) (drill_pixels 33) ≡ row_32 }
{}
