// Call 4: `frame_synthesis` of features.rs, after the inverse transform.
ghost use Rattle.std.specs.Prelude.{◌≡◌, length};
ghost use Rattle.bands.specs.Window.{window};
ghost use Rattle.frame.specs.Frame.{window_buf, overlapped, later_half};

// Halves each number of the inverse transform and windows it. Its first half is added to what was kept and
// written; its second half is kept.
fn overlap(kept: &mut [f32], table: &[f32; 960], inverse: &[f32; 960], out: &mut [f32; 480])
    requires { (length kept.old ≡ 480) × (table.now ≡ window) }
    ensures kept_after { kept.new ≡ later_half (window_buf inverse.now) }
    ensures out_after { out.new ≡ overlapped (window_buf inverse.now) kept.old }
{
    for (i, sample) in out.iter_mut().enumerate() {
        *sample = inverse[i] / 2.0 * table[i] + kept[i];
        kept[i] = inverse[480 + i] / 2.0 * table[480 + i];
    }
}

pub(crate) fn synthesise(kept: &mut [f32], inverse: &[f32; 960], out: &mut [f32; 480])
    requires { length kept.old ≡ 480 }
    ensures kept_after { kept.new ≡ later_half (window_buf inverse.now) }
    ensures out_after { out.new ≡ overlapped (window_buf inverse.now) kept.old }
{
    let table = bands::window::all();
    overlap(kept, &table, inverse, out);
}
