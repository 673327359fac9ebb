//! Whether two plans are the same.
ghost use Rattle.std.specs.Prelude.{◌≡◌, true, bytes_eq, length as len};
ghost use Rattle.fz_strict.specs.FoundOptions.{is_same_codec};

use fz_block::Axes;
use fz_head::Plan;
use fz_tile::Codec;

/// Whether two plans are the same, part by part.
pub(crate) fn is_plan(made: &Plan, plan: &Plan) -> bool
    ensures same { result ≡ true → made.now ≡ plan.now }
    ensures other { made.now ≡ plan.now → result ≡ true }
{
    if !is_codec(&made.codec, &plan.codec) || made.bitpix != plan.bitpix {
        return false;
    }
    if !is_axes(&made.shape, &plan.shape) || !is_axes(&made.tile, &plan.tile) {
        return false;
    }
    made.primary == plan.primary && made.wide == plan.wide
}

// Whether two codecs are the same.
fn is_codec(made: &Codec, codec: &Codec) -> bool
    ensures { result ≡ is_same_codec made.now codec.now }
{
    match made {
        Codec::Rice { block, bytepix } => match codec {
            Codec::Rice {
                block: other,
                bytepix: long,
            } => block == other && bytepix == long,
            Codec::Plio => false,
            Codec::Plain => false,
        },
        Codec::Plio => match codec {
            Codec::Rice { .. } => false,
            Codec::Plio => true,
            Codec::Plain => false,
        },
        Codec::Plain => match codec {
            Codec::Rice { .. } => false,
            Codec::Plio => false,
            Codec::Plain => true,
        },
    }
}

// Whether two arrays have the same axes.
fn is_axes(made: &Axes, axes: &Axes) -> bool
    ensures same { result ≡ true → made.now ≡ axes.now }
    ensures other { made.now ≡ axes.now → result ≡ true }
{
    made.n == axes.n && is_lengths(made.len.as_slice(), axes.len.as_slice())
}

// Whether two lists of lengths are the same.
fn is_lengths(made: &[u32], lengths: &[u32]) -> bool
    ensures { result ≡ bytes_eq made.now lengths.now }
{
    made == lengths
}
