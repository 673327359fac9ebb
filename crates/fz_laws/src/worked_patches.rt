//! Patches that were written out by hand, as the definitions have them: no code runs.
ghost use Rattle.std.specs.Prelude.{◌≡◌, Ok, None};
ghost use Rattle.fz_files.specs.CutEnds.{longer_file, unfinished_file};
ghost use Rattle.fz_files.specs.CutFile.{table_facts};
ghost use Rattle.fz_files.specs.FaultFile.{past_file};
ghost use Rattle.fz_files.specs.OtherFile.{other_file};
ghost use Rattle.fz_files.specs.PlainFile.{grid_file, plain_file, plain_plan};
ghost use Rattle.fz_files.specs.RiceFile.{rice_file};
ghost use Rattle.fz_files.specs.SumFile.{sum_file};
ghost use Rattle.fz_laws.specs.PatchChecks.{patch_target};
ghost use Rattle.fz_laws.specs.FirstPatchFault.{ArePatchSteps, IsFirstPatchFault, IsPatchedFile};
ghost use Rattle.fz_laws.specs.Given.{given_by};
ghost use Rattle.fz_laws.specs.GridPatch.{one_file, one_job, one_steps, short_file, six_file, six_job, six_patched, six_steps, six_tiles, six_writes};
ghost use Rattle.fz_laws.specs.GridPatch.{two_file, two_job, two_steps};
ghost use Rattle.fz_laws.specs.NewNumbers.{box_tiles};
ghost use Rattle.fz_laws.specs.PatchFaults.{axis_fault, axis_job, follower_fault, form_fault, given_fault, no_image_fault, past_axis_fault};
ghost use Rattle.fz_laws.specs.PatchFaults.{past_axis_job, row_fault, no_hdu_fault};
ghost use Rattle.fz_laws.specs.RicePatch.{far_file, far_job, far_steps, flat_file, flat_job, flat_steps, rice_facts};
ghost use Rattle.fz_laws.specs.Writes.{all_writes};
ghost use Rattle.fz_laws.specs.SumPatch.{sum_facts, sum_steps};
ghost use Rattle.fz_laws.specs.WidePatch.{lent_facts, lent_file, lent_job, lent_steps, nine_image};

use fz_tile::tile_code_law;

/// Patches of an image of 5 by 3 pixels without a codec, as `specs/GridPatch.antt` writes them out: six pixels, which lie
/// in four tiles, with all writes and the patched file; the last pixel; and two pixels, by which the form of their column
/// comes to say the greatest count of all its rows.
pub fn grid_patch_law()
    ensures target { patch_target plain_file six_file six_job ≡ Ok table_facts }
    ensures tiles { box_tiles plain_plan (given_by six_file six_job) ≡ six_tiles }
    ensures fault { IsFirstPatchFault plain_file six_file six_job None }
    ensures steps { ArePatchSteps plain_file six_file six_job table_facts six_steps }
    ensures order { all_writes six_steps ≡ six_writes }
    ensures file { IsPatchedFile plain_file six_file six_job six_patched }
    ensures last { ArePatchSteps plain_file one_file one_job table_facts one_steps }
    ensures form { ArePatchSteps short_file two_file two_job table_facts two_steps }
{}

/// The patch of six pixels of a table with checksums, as `specs/SumPatch.antt` writes it out.
pub fn sum_patch_law()
    ensures target { patch_target sum_file six_file six_job ≡ Ok sum_facts }
    ensures steps { ArePatchSteps sum_file six_file six_job sum_facts sum_steps }
{}

/// A patch of a table of another packer, as `specs/WidePatch.antt` writes it out.
pub fn wide_patch_law()
    ensures target { patch_target lent_file nine_image lent_job ≡ Ok lent_facts }
    ensures steps { ArePatchSteps lent_file nine_image lent_job lent_facts lent_steps }
{}

/// Patches of an image with Rice codes, as `specs/RicePatch.antt` writes them out: a tile that is stored, since its code is
/// not shorter, so that the form of the second column comes to say its count; and one that has a code.
pub fn rice_patch_law()
    ensures stored { ArePatchSteps rice_file far_file far_job rice_facts far_steps }
    ensures coded { ArePatchSteps rice_file flat_file flat_job rice_facts flat_steps }
{
    tile_code_law();
}

/// First faults of patches, as `specs/PatchFaults.antt` writes them out.
pub fn patch_faults_law()
    ensures outside { IsFirstPatchFault plain_file six_file past_axis_job past_axis_fault }
    ensures axes { IsFirstPatchFault plain_file plain_file axis_job axis_fault }
    ensures given { IsFirstPatchFault plain_file plain_file six_job given_fault }
    ensures follower { IsFirstPatchFault longer_file six_file six_job follower_fault }
    ensures unfinished { IsFirstPatchFault unfinished_file six_file six_job no_hdu_fault }
    ensures form { IsFirstPatchFault other_file six_file six_job form_fault }
    ensures missing { IsFirstPatchFault grid_file six_file six_job no_image_fault }
    ensures row { IsFirstPatchFault past_file six_file six_job row_fault }
{}
