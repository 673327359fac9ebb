//! What the checks of a job say of an HDU of which they refuse nothing.
ghost use Rattle.std.specs.Prelude.{◌≡◌, ℕ, ◌==◌, Bool, true, false, List, [], ◌∷◌, Option, Some, None, Ok, drop, length, replicate, if◌then◌else◌};
ghost use Rattle.fz_base.specs.Refusal.{first_refusal};
ghost use Rattle.fz_block.specs.Facts.{IsHeaderOf, begun_at, sort_of};
ghost use Rattle.fz_block.specs.Hdus.{HasBlankFill, cards_of, header_bytes};
ghost use Rattle.fz_block.specs.Walk.{hdu_of};
ghost use Rattle.fz_block.specs.declared.header.Header.{Header};
ghost use Rattle.fz_grid.specs.Region.{IsDivided};
ghost use Rattle.fz_grid.specs.declared.region.Region.{Region};
ghost use Rattle.fz_tile.specs.Codecs.{CanWrite};
ghost use Rattle.fz_checks.specs.declared.job_checks.PackedImage.{PackedImage};
ghost use Rattle.fz_head.specs.declared.options.PackOptions.{PackOptions};
ghost use Rattle.fz_head.specs.declared.plan.Plan.{Plan};
ghost use Rattle.fz_checks.specs.JobChecks.{IsImageOf, IsImageToPack, cut_checks, data_fill, fill_in, image_checks, image_in};
ghost use Rattle.fz_checks.specs.JobChecks.{image_to_unpack, plan_to_pack, unpack_checks};
ghost use Rattle.fz_head.specs.Packable.{is_packable, is_packed, is_primary};
ghost use Rattle.fz_head.specs.PackChecks.{name_checks, pack_answer};
ghost use Rattle.fz_head.specs.PackedChecks.{plan_answer};
ghost use Rattle.fz_head.specs.PlainHeader.{plain_header};
ghost use Rattle.fz_head.specs.Planned.{AreOptions, pack_plan_of};

/// The plan of an image that is to be packed divides it into tiles, which its codec can write.
pub fn pack_plan_law()
    ensures divided { (o : PackOptions) (h : Header) (header : List ℕ) (p : Plan) → AreOptions o → IsHeaderOf header h
        → is_packable h ≡ true → pack_answer o h header ≡ Ok p
        → IsDivided p.shape p.tile }
    ensures writable { (o : PackOptions) (h : Header) (header : List ℕ) (p : Plan) → AreOptions o → is_packable h ≡ true
        → pack_answer o h header ≡ Ok p
        → CanWrite p.codec p.bitpix }
{}

/// If no check of the names of an image refuses anything, only blanks are after END; and if that of the
/// fill of data refuses nothing, the fill is zeros.
pub fn fill_law()
    ensures header { (h : Header) (header : List ℕ) → first_refusal (name_checks h header) ≡ None → HasBlankFill header }
    ensures data { (h : Header) (fill : List ℕ) → first_refusal (data_fill h fill ∷ []) ≡ None → fill ≡ replicate (length fill) 0 }
{}

/// An image of a file of which no check of `pack` refuses anything has a plan, which divides it into tiles that its
/// codec can write; only blanks are after END of its header, and zeros after its data.
pub fn image_to_pack_law()
    ensures plan { (o : PackOptions) (file : List ℕ) (h : Header) → IsImageToPack o file h
        → pack_answer o h (hdu_of file h).header ≡ Ok (pack_plan_of o h) }
    ensures divided { (o : PackOptions) (file : List ℕ) (h : Header) → IsImageToPack o file h
        → IsDivided (pack_plan_of o h).shape (pack_plan_of o h).tile }
    ensures writable { (o : PackOptions) (file : List ℕ) (h : Header) → IsImageToPack o file h
        → CanWrite (pack_plan_of o h).codec (pack_plan_of o h).bitpix }
    ensures header_fill { (o : PackOptions) (file : List ℕ) (h : Header) → IsImageToPack o file h → HasBlankFill (hdu_of file h).header }
    ensures data_fill { (o : PackOptions) (file : List ℕ) (h : Header) → IsImageToPack o file h
        → fill_in file h ≡ replicate (length (fill_in file h)) 0 }
{}

/// A packed HDU of which the checks of its table and its plan refuse nothing is the image that its header says; so
/// is one of which `unpack` or `cut` refuses nothing.
pub fn packed_image_law()
    ensures checks { (h : Header) (header : List ℕ) (after_empty : Bool) → IsHeaderOf header h
        → first_refusal (image_checks h header after_empty) ≡ None
        → IsImageOf header h (image_in h header) }
    ensures unpack { (h : Header) (header : List ℕ) (after_empty : Bool) → IsHeaderOf header h → is_packed header h ≡ true
        → first_refusal (unpack_checks h header after_empty) ≡ None
        → IsImageOf header h (image_in h header) }
    ensures cut { (h : Header) (header : List ℕ) (after_empty : Bool) (region : Region) → IsHeaderOf header h
        → first_refusal (cut_checks h header after_empty region) ≡ None
        → IsImageOf header h (image_in h header) }
{}

/// HDU 0 is the primary, and no other; and the plan of an image says whether it is that.
pub fn primary_law()
    ensures sort { (k : ℕ) (header : List ℕ) → is_primary (sort_of k header) ≡ (k == 0) }
    ensures facts { (header : List ℕ) (h : Header) → IsHeaderOf header h → is_primary h.sort ≡ (h.hdu == 0) }
    ensures planned { (o : PackOptions) (h : Header) → (pack_plan_of o h).primary ≡ is_primary h.sort }
{}

/// What `pack` answers for an HDU of which it refuses nothing: the plan that the options make if it can be
/// packed, and none if it can not. Neither depends on the byte at which the HDU begins.
pub fn plan_to_pack_law()
    ensures answer { (o : PackOptions) (h : Header) (header : List ℕ) (r : Option Plan) → plan_to_pack o h header ≡ Ok r
        → r ≡ (if is_packable h then Some (pack_plan_of o h) else None) }
    ensures planned { (o : PackOptions) (h : Header) (header : List ℕ) (p : Plan) → plan_to_pack o h header ≡ Ok (Some p)
        → (is_packable h ≡ true) × (p ≡ pack_plan_of o h) }
    ensures copied { (o : PackOptions) (h : Header) (header : List ℕ) → plan_to_pack o h header ≡ Ok None → is_packable h ≡ false }
    ensures packable { (start : ℕ) (h : Header) → is_packable (begun_at start h) ≡ is_packable h }
    ensures plan { (o : PackOptions) (start : ℕ) (h : Header) → pack_plan_of o (begun_at start h) ≡ pack_plan_of o h }
{}

/// A packed image that was a primary is answered only if its HDU is after an empty primary; and the header
/// of the image then begins with the S of SIMPLE.
pub fn packed_primary_law()
    ensures plan { (k : ℕ) (header : List ℕ) (after_empty : Bool) (p : Plan) → plan_answer k header after_empty ≡ Ok p
        → p.primary ≡ true → after_empty ≡ true }
    ensures unpack { (h : Header) (header : List ℕ) (after_empty : Bool) (i : PackedImage)
        → image_to_unpack h header after_empty ≡ Ok (Some i) → i.plan.primary ≡ true → after_empty ≡ true }
    ensures begins { (h : Header) (header : List ℕ) (after_empty : Bool) (i : PackedImage)
        → image_to_unpack h header after_empty ≡ Ok (Some i) → i.plan.primary ≡ true
        → header_bytes (plain_header (cards_of header)) ≡ 83 ∷ drop 1 (header_bytes (plain_header (cards_of header))) }
{}
