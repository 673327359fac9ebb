//! What the jobs have in common: the first look at a file, with all checks of headers, and the buffers that the job
//! takes then; a header that is read once more; what the jobs that write a file hold back, copy and fill; and their
//! promises, and how these follow from the stages of a job.
//!
//! Reading order: `checks`, `look`, `fill_check`, `survey`, `surveys`, `workspace`, `survey_laws`; `again`, `reread`, `again_laws`;
//! `held`, `copying`, `filling`; `law`, `stages`.
#![tactic(auto)]

mod again;
mod again_laws;
mod checks;
mod copying;
mod fill_check;
mod filling;
mod held;
mod law;
mod look;
mod reread;
mod stages;
mod survey;
mod survey_laws;
mod surveys;
mod workspace;

pub use again::{ReadHdu, changed, read_again};
pub use again_laws::{hdus_law, headers_law, known_law};
pub use checks::JobChecks;
pub use copying::{copy_hdu, left_for_last};
pub use filling::write_fill;
pub use held::{Held, hold_back, hold_piece, write_held, write_pieces};
pub use law::greatest_bound_law;
pub use reread::read_front;
pub use stages::stages_law;
pub use survey::{Begun, Survey, survey_headers};
pub use survey_laws::{survey_law, workspace_law};
pub use surveys::{survey_every, survey_to_amend, survey_to_cut, survey_to_pack, survey_to_unpack};
pub use workspace::{Wants, Workspace};
