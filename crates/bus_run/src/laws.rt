//! The laws of runs.
ghost use Rattle.std.specs.Prelude.{◌≡◌, ℕ, ◌<◌, List, length};
ghost use Rattle.pack_model.specs.declared.network.Network.{Network};
ghost use Rattle.pack_model.specs.Network.{NetworkStands};
ghost use Rattle.response_test.specs.Frame.{IsShown};
ghost use Rattle.bus_run.specs.declared.run.BusFrame.{BusFrame};
ghost use Rattle.bus_run.specs.declared.run.Release.{Release};
ghost use Rattle.bus_run.specs.declared.run.Sent.{Sent};
ghost use Rattle.bus_run.specs.declared.playing.Pick.{Pick};
ghost use Rattle.bus_run.specs.Played.{pick_at, Follows};
ghost use Rattle.bus_run.specs.Frames.{AreBusFrames, HaveWorstTicks, times_of};
ghost use Rattle.bus_run.specs.Run.{Course, release_at};
ghost use Rattle.bus_run.specs.Rules.{RunStands, RunBreaks};
ghost use Rattle.bus_run.specs.Late.{IsLate, IsByNumber, IsShownAt};

/// A law: no release of a frame that is shown is late in any run that stands.
pub fn shown_is_never_late()
    ensures { (network : Network) (frames : List BusFrame) (run : Course) (order : List ℕ) (place busy : ℕ)
        → (starts : List ℕ) (release : ℕ)
        → NetworkStands network → AreBusFrames frames → HaveWorstTicks network frames
        → IsByNumber (length frames) order place → RunStands network frames run
        → IsShown (times_of frames) order place network.nominal_ticks busy starts
        → (release_at run release).frame ≡ place → IsLate frames run release → ⊥ }
{}

/// A law: where each frame is shown, no release is late in any run that stands.
pub fn all_shown_are_never_late()
    ensures { (network : Network) (frames : List BusFrame) (run : Course) (order : List ℕ)
        → NetworkStands network → AreBusFrames frames → HaveWorstTicks network frames
        → ((place : ℕ) → place < length frames
        → IsByNumber (length frames) order place × IsShownAt network frames order place)
        → RunStands network frames run → (release : ℕ) → IsLate frames run release → ⊥ }
{}

/// A law: a run that breaks a rule does not stand.
pub fn broken_runs_do_not_stand()
    ensures { (network : Network) (frames : List BusFrame) (run : Course) (rule place : ℕ)
        → RunBreaks network frames run rule place → RunStands network frames run → ⊥ }
{}

/// A law: two runs that stand with the same releases and end, and follow the same picks, are the same.
pub fn one_run_follows_picks()
    ensures { (network : Network) (frames : List BusFrame) (picks : List Pick) (releases : List Release)
        → (until : ℕ) (sends others : List Sent)
        → RunStands network frames (record { releases = releases; sends = sends; until = until })
        → RunStands network frames (record { releases = releases; sends = others; until = until })
        → ((number : ℕ) → number < length sends → Follows network frames (pick_at picks number)
        (record { releases = releases; sends = sends; until = until }) number)
        → ((number : ℕ) → number < length others → Follows network frames (pick_at picks number)
        (record { releases = releases; sends = others; until = until }) number)
        → sends ≡ others }
{}
