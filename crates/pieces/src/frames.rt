// The two halves of a frame, on its part of a share. The callers have tested everything that could refuse
// them.
ghost use Rattle.std.specs.Prelude.{true, ◌≡◌, ◌+◌, ◌≤◌, length};
ghost use Rattle.rules.specs.Place.{get, put};
ghost use Rattle.frame.specs.Written.{from, over, first_in};
ghost use Rattle.samples.specs.Samples.{good};
ghost use Rattle.model.specs.Model.{read_of};
ghost use Rattle.frame.specs.Answer.{reply_told};
ghost use Rattle.frame.specs.Reply.{passed};
ghost use Rattle.frame.specs.Frame.{counted, checked};
ghost use Rattle.halves.specs.Halves.{first_half, second_half};
ghost use Rattle.pieces.specs.Pieces.{frame_part};

use frame::{Hearing, PART, Told, Way};

// Begins a frame with 480 samples, and writes its sums.
pub(crate) fn enter(share: &mut [f32], way: Way, samples: &[f32], sums: &mut [f32])
    requires { (length share.old ≡ 6144) × (length samples.now ≡ 480) × (good samples.now ≡ true)
        × (length sums.old ≡ 22) }
    ensures share_after { share.new
        ≡ put frame_part share.old
        (first_half (get frame_part share.old) way samples.now 22).kept }
    ensures sums_after { sums.new
        ≡ first_in (first_half (get frame_part share.old) way samples.now 22).written }
{
    halves::first_half(&mut share[0..PART], way, samples, sums).unwrap();
}

// Finishes the frame under way, and writes it from `start` on.
pub(crate) fn leave(
    share: &mut [f32],
    hearing: Hearing,
    logs: &[f32],
    model: &[u8],
    out: &mut [f32],
    start: usize,
) -> Told
    requires sizes { (length share.old ≡ 6144) × (hearing.index ≤ 7) × (length logs.now ≡ 22)
        × (start + 480 ≤ length out.old) }
    requires model_passes { passed (checked (counted hearing) (read_of model.now)) ≡ true }
    ensures told { reply_told result
        ≡ (second_half (get frame_part share.old) hearing logs.now
        model.now 480).answer }
    ensures share_after { share.new
        ≡ put frame_part share.old
        (second_half (get frame_part share.old) hearing logs.now model.now 480).kept }
    ensures out_after { out.new
        ≡ over (from start
        (first_in (second_half (get frame_part share.old) hearing logs.now
        model.now 480).written))
        out.old }
{
    let end = start + 480;
    halves::second_half(
        &mut share[0..PART],
        hearing,
        logs,
        model,
        &mut out[start..end],
    )
    .unwrap()
}
