//! Files that were packed by hand, as the definitions have them: no code runs.
ghost use Rattle.std.specs.Prelude.{◌≡◌, ◌++◌, pos, None, Some, true, false};
ghost use Rattle.fz_block.specs.Facts.{facts_of};
ghost use Rattle.fz_head.specs.PackedPlan.{plan_of_cards};
ghost use Rattle.fz_head.specs.Planned.{is_wide, pack_plan_of};
ghost use Rattle.fz_tile.specs.TileCode.{tile_code};
ghost use Rattle.fz_tile.specs.declared.codec.Codec.TheVariants.{Rice};
ghost use Rattle.fz_files.specs.declared.job.Job.TheVariants.{Pack, Unpack, Cut, Verify, List as ListHdus};
ghost use Rattle.fz_files.specs.BufferFile.{unpack_bound, unpack_takings};
ghost use Rattle.fz_files.specs.Buffers.{job_bound, job_takings};
ghost use Rattle.fz_files.specs.CutEnds.{longer_file, unfinished_file, unfinished_ranges, outside_sieve, outside_fault};
ghost use Rattle.fz_files.specs.CutEnds.{missing_fault, record_file, axis_sieve, record_ranges};
ghost use Rattle.fz_files.specs.CutFile.{table_facts, box_sieve, box_file, box_ranges, reference_cards, moved_cards};
ghost use Rattle.fz_files.specs.CutFile.{second_sieve, kept_cards, step_sieve, step_numbers, ends_sieve, ends_ranges};
ghost use Rattle.fz_files.specs.CutFile.{mixed_cards, third_sieve, unmixed_cards};
ghost use Rattle.fz_files.specs.CutoutBytes.{IsCutout, cutout_cards};
ghost use Rattle.fz_files.specs.Cutout.{AreCutFrom, touched as touched_of};
ghost use Rattle.fz_files.specs.ExtensionFile.{image_cards, row_pixels, image_hdu, extension_file, bare_options, image_plan};
ghost use Rattle.fz_files.specs.ExtensionFile.{image_tiles, image_rows, image_table_cards, packed_extension};
ghost use Rattle.fz_files.specs.FaultFile.{past_file, past_fault, reserved_file, reserved_fault, trailing_file, trailing_fault};
ghost use Rattle.fz_files.specs.FaultPlaces.{twice_file, twice_fault, huge_file, huge_fault, misplaced_file, misplaced_fault};
ghost use Rattle.fz_files.specs.FaultPlaces.{groups_file, groups_fault, sort_file, sort_fault, nine_file, nine_fault, both_file};
ghost use Rattle.fz_files.specs.FirstFault.{IsFirstFault};
ghost use Rattle.fz_files.specs.Lines.{has_wrong_sums, report_lines};
ghost use Rattle.fz_files.specs.LinesFile.{lines_file, verify_lines, list_lines, lines_past, lines_fault, first_line};
ghost use Rattle.fz_files.specs.LongFile.{line_cards, line_pixels, line_hdu, line_file, long_options, long_plan, long_tiles};
ghost use Rattle.fz_files.specs.LongFile.{long_rows, long_cards, long_file};
ghost use Rattle.fz_files.specs.OtherFile.{image_file, other_cards, other_file, other_plan};
ghost use Rattle.fz_files.specs.Packed.{IsPackedFile, array_of, heap_of, rows_from, sum_before, table_header, tile_codes, with_sums};
ghost use Rattle.fz_files.specs.PlainFile.{grid_cards, grid_hdu, grid_file, plain_options, plain_plan, plain_tiles, plain_rows};
ghost use Rattle.fz_files.specs.PlainFile.{plain_heap, plain_data, plain_cards, plain_file};
ghost use Rattle.fz_files.specs.PlanFacts.{parameter_cards, parameter_plan, wide_axis, narrow_axis, near_pixels, near_code, far_pixels, far_code};
ghost use Rattle.fz_files.specs.PlioFile.{mask_cards, mask_hdu, mask_file, plio_options, plio_plan, plio_tiles, plio_rows};
ghost use Rattle.fz_files.specs.PlioFile.{plio_heap, plio_cards, plio_file};
ghost use Rattle.fz_files.specs.StandsFor.{StandsFor};
ghost use Rattle.fz_files.specs.SumFile.{sum_options, sum_file_cards, blank_sum, sum_file};
ghost use Rattle.fz_files.specs.Touched.{touched_by};
ghost use Rattle.fz_files.specs.TouchedFile.{unpack_ranges, verify_ranges, list_ranges, pack_ranges, rejected_ranges};
ghost use Rattle.fz_files.specs.WideFile.{wide_file, narrow_file, wide_ranges};
ghost use Rattle.fz_files.specs.RiceFile.{small_cards, small_hdu, small_file, rice_options, rice_plan, rice_tiles, rice_rows};
ghost use Rattle.fz_files.specs.RiceFile.{rice_heap, rice_cards, rice_file};

/// The packed file of an image of 4 by 2 pixels with Rice codes: its plan, what is written for each tile, its
/// rows, its heap, the cards of its table, and all its bytes are those that `specs/RiceFile.antt` writes out.
pub fn rice_file_law()
    ensures plan { pack_plan_of rice_options (facts_of 0 0 small_hdu.header) ≡ rice_plan }
    ensures tiles { tile_codes rice_plan (array_of rice_plan small_hdu.payload) ≡ rice_tiles }
    ensures rows { rows_from rice_plan 0 rice_tiles ≡ rice_rows }
    ensures heap { heap_of rice_tiles ≡ rice_heap }
    ensures cards { table_header rice_plan small_cards rice_tiles ≡ rice_cards }
    ensures file { IsPackedFile rice_options small_file rice_file }
{}

/// The same of an image of 5 by 3 pixels without a codec, whose tiles of 2 by 2 pixels are cut short at the upper
/// ends of the axes: as `specs/PlainFile.antt` writes it out. It stands for the file of the image.
pub fn plain_file_law()
    ensures plan { pack_plan_of plain_options (facts_of 0 0 grid_hdu.header) ≡ plain_plan }
    ensures tiles { tile_codes plain_plan (array_of plain_plan grid_hdu.payload) ≡ plain_tiles }
    ensures rows { rows_from plain_plan 0 plain_tiles ≡ plain_rows }
    ensures heap { heap_of plain_tiles ≡ plain_heap }
    ensures cards { table_header plain_plan grid_cards plain_tiles ≡ plain_cards }
    ensures file { IsPackedFile plain_options grid_file plain_file }
    ensures restored { StandsFor plain_file grid_file }
{}

/// The file of [`plain_file_law`] with sums: DATASUM and CHECKSUM are after the cards of the image, as
/// `specs/SumFile.antt` writes them out.
pub fn sum_file_law()
    ensures before { sum_before plain_cards plain_data ≡ blank_sum }
    ensures cards { with_sums true plain_cards plain_data ≡ sum_file_cards }
    ensures file { IsPackedFile sum_options grid_file sum_file }
{}

/// The packed file of an image of 2 pixels of 64 bits, for which Rice codes are asked: its tile is stored, as
/// `specs/LongFile.antt` writes it out.
pub fn long_file_law()
    ensures plan { pack_plan_of long_options (facts_of 0 0 line_hdu.header) ≡ long_plan }
    ensures tiles { tile_codes long_plan (array_of long_plan line_hdu.payload) ≡ long_tiles }
    ensures rows { rows_from long_plan 0 long_tiles ≡ long_rows }
    ensures heap { heap_of long_tiles ≡ line_pixels }
    ensures cards { table_header long_plan line_cards long_tiles ≡ long_cards }
    ensures file { IsPackedFile long_options line_file long_file }
{}

/// The packed file of a primary without data and an image of 4 by 2 pixels of 16 bits in an extension, without a
/// codec: the primary stays as it is, and no other is before the table, as `specs/ExtensionFile.antt` writes
/// it out.
pub fn extension_file_law()
    ensures plan { pack_plan_of bare_options (facts_of 1 0 image_hdu.header) ≡ image_plan }
    ensures tiles { tile_codes image_plan (array_of image_plan image_hdu.payload) ≡ image_tiles }
    ensures rows { rows_from image_plan 0 image_tiles ≡ image_rows }
    ensures heap { heap_of image_tiles ≡ row_pixels ++ row_pixels }
    ensures cards { table_header image_plan image_cards image_tiles ≡ image_table_cards }
    ensures file { IsPackedFile bare_options extension_file packed_extension }
{}

/// The first fault of the file of [`rice_file_law`] with ten bytes after it, and of the same with a card whose name
/// is reserved: `pack` refuses the card, which is of HDU 0, before the bytes, from which HDU 1 would begin; `unpack`
/// does not look for reserved names. Of two rows of a packed file that describe bytes after the heap the lower is
/// refused.
pub fn fault_file_law()
    ensures own { IsFirstFault (Pack rice_options) reserved_file reserved_fault }
    ensures every { IsFirstFault (Pack rice_options) trailing_file trailing_fault }
    ensures unpack { IsFirstFault Unpack reserved_file trailing_fault }
    ensures row { IsFirstFault Unpack past_file past_fault }
{}

/// Parts of the image that the packed file of [`plain_file_law`] holds: the cutout of a box, whose reference pixels
/// are moved by its corner, but not along an axis with a step; the pixels of a box with steps; and the ranges of the
/// file that a cut reads for the box, and for a box with steps that leave a tile out; and the cards of a cutout of a
/// table with cards of many kinds, as `specs/CutFile.antt` writes them out.
pub fn cut_file_law()
    ensures file { IsCutout None box_sieve plain_file box_file }
    ensures moved { cutout_cards box_sieve reference_cards ≡ moved_cards }
    ensures kept { cutout_cards second_sieve reference_cards ≡ kept_cards }
    ensures steps { AreCutFrom plain_file table_facts step_sieve step_numbers }
    ensures touched { touched_of None box_sieve plain_file ≡ box_ranges }
    ensures gaps { touched_of None ends_sieve plain_file ≡ ends_ranges }
    ensures cards { cutout_cards third_sieve mixed_cards ≡ unmixed_cards }
{}

/// A file of another packer, as `specs/OtherFile.antt` writes it out: its plan, and the file that it stands for. Its
/// table has one column and says neither the length of the tile, which is then the whole axis, nor BYTEPIX, which is
/// then 4, so that the code is one of 32 bits of pixels of 16. Its first HDU is a primary without data, which stands
/// for nothing, though its cards are not those that `pack` writes. The sums and the name of the table do not come back.
pub fn other_file_law()
    ensures plan { plan_of_cards other_cards ≡ other_plan }
    ensures restored { StandsFor other_file image_file }
{}

/// The lines that `verify` and `list` print of a file with checksums, as `specs/LinesFile.antt` writes them out: of the
/// checksums of its table one is right and one is wrong, and an empty text is no checksum. Of the same file with a
/// faulty row `verify` prints the lines of the HDUs before it. No checksum of the file of [`sum_file_law`] is wrong.
pub fn lines_file_law()
    ensures verify { report_lines Verify lines_file None ≡ verify_lines }
    ensures list { report_lines ListHdus lines_file None ≡ list_lines }
    ensures wrong { has_wrong_sums lines_file ≡ true }
    ensures right { has_wrong_sums sum_file ≡ false }
    ensures past { IsFirstFault Verify lines_past lines_fault }
    ensures front { report_lines Verify lines_past lines_fault ≡ first_line }
{}

/// The buffers that `unpack` with one worker takes for the packed file of [`plain_file_law`], and their bound, as
/// `specs/BufferFile.antt` writes them out as numbers.
pub fn buffer_file_law()
    ensures bound { job_bound Unpack plain_file 1 ≡ unpack_bound }
    ensures takings { job_takings Unpack plain_file 1 ≡ unpack_takings }
{}

/// Where a cut ends, as `specs/CutEnds.antt` writes it out: it reads nothing after the HDU that it cuts from; it ends at
/// an HDU that is refused; a box outside the image is refused, and so is a file without a packed image; and of a record
/// that is too long it reads as much as a tile can need.
pub fn cut_ends_law()
    ensures stops { touched_of None box_sieve longer_file ≡ box_ranges }
    ensures refused { touched_of (Some 2) box_sieve unfinished_file ≡ unfinished_ranges }
    ensures outside { IsFirstFault (Cut None outside_sieve) plain_file outside_fault }
    ensures missing { IsFirstFault (Cut None box_sieve) grid_file missing_fault }
    ensures long_record { touched_of None axis_sieve record_file ≡ record_ranges }
{}

/// What jobs may read of the packed file of [`plain_file_law`] and of the file that was packed, and of a file that is
/// rejected for the bytes after its image, as `specs/TouchedFile.antt` writes it out as numbers: `unpack` the headers,
/// and of each row both descriptors and the record; `verify` also the data of each HDU; `list` only the headers; `pack`
/// the padding after an image, and the headers; and all data, but only if no header is rejected.
pub fn touched_file_law()
    ensures unpack { touched_by Unpack plain_file ≡ unpack_ranges }
    ensures verify { touched_by Verify plain_file ≡ verify_ranges }
    ensures list { touched_by ListHdus plain_file ≡ list_ranges }
    ensures pack { touched_by (Pack plain_options) grid_file ≡ pack_ranges }
    ensures rejected { touched_by (Pack rice_options) trailing_file ≡ rejected_ranges }
{}

/// First faults and their places, as `specs/FaultPlaces.antt` writes them out: a reserved name is looked for before a
/// card that occurs twice; data past the limit are refused before the file is found to be too short; a packed primary
/// has its place after a primary without axes; ZGCOUNT is 1 and ZTENSION is IMAGE; a row describes bytes of the heap;
/// and one that describes a code and pixels is read by the code.
pub fn fault_places_law()
    ensures reserved { IsFirstFault (Pack rice_options) twice_file twice_fault }
    ensures limit { IsFirstFault Unpack huge_file huge_fault }
    ensures misplaced { IsFirstFault Unpack misplaced_file misplaced_fault }
    ensures groups { IsFirstFault Unpack groups_file groups_fault }
    ensures sort { IsFirstFault Unpack sort_file sort_fault }
    ensures range { IsFirstFault Unpack nine_file nine_fault }
    ensures taken { IsFirstFault Unpack both_file None }
{}

/// Plans and tiles, as `specs/PlanFacts.antt` writes them out: of two parameters of one name that with the least number
/// counts; descriptors have 64 bits from 2^31 bytes of pixels on; and a tile is stored if its code is not shorter.
pub fn plan_facts_law()
    ensures parameters { plan_of_cards parameter_cards ≡ parameter_plan }
    ensures wide { is_wide (pos 64) wide_axis ≡ true }
    ensures narrow { is_wide (pos 64) narrow_axis ≡ false }
    ensures coded { tile_code (Rice 32 2) 16 near_pixels ≡ near_code }
    ensures stored { tile_code (Rice 32 2) 16 far_pixels ≡ far_code }
{}

/// The packed file of an image of 32 pixels with a line list, as `specs/PlioFile.antt` writes it out.
pub fn plio_file_law()
    ensures plan { pack_plan_of plio_options (facts_of 0 0 mask_hdu.header) ≡ plio_plan }
    ensures tiles { tile_codes plio_plan (array_of plio_plan mask_hdu.payload) ≡ plio_tiles }
    ensures rows { rows_from plio_plan 0 plio_tiles ≡ plio_rows }
    ensures heap { heap_of plio_tiles ≡ plio_heap }
    ensures cards { table_header plio_plan mask_cards plio_tiles ≡ plio_cards }
    ensures file { IsPackedFile plio_options mask_file plio_file }
{}

/// A file of another packer with descriptors of 64 bits, as `specs/WideFile.antt` writes it out: the file that it
/// stands for, and what a cut of it reads.
pub fn wide_file_law()
    ensures restored { StandsFor wide_file narrow_file }
    ensures touched { touched_of None axis_sieve wide_file ≡ wide_ranges }
{}
