//! Writing whole texts to two files.
ghost use Rattle.std.specs.Prelude.{◌≢◌, [], ◌∷◌, OnOk, OnErr};
ghost use Rattle.pack_base.specs.Counts.{HasCause};
ghost use Rattle.pack_base.specs.Outside.{Changes, Holds, Later};
ghost use Rattle.canpack_top.specs.Reads.{SomeRose};
ghost use Rattle.canpack_top.specs.Write.{HoldsFront, PartWritten, Written};

use pack_base::{Failed, Folder};

/// Puts a file with this text in the place of what was there.
fn write_file<F: Folder>(folder: &mut F, name: &str, text: &[u8]) -> Result<(), Failed>
    ensures ok { OnOk result (Changes name.now (Holds text.now) (F.files folder.old) (F.files folder.new)) }
    ensures err { OnErr result (Changes name.now (HoldsFront text.now)
        (F.files folder.old) (F.files folder.new)) }
    ensures later { Later F.read_faults F.write_faults F.given folder.old folder.new }
    ensures cause { HasCause (F.write_faults folder.old name.now)
        (F.write_faults folder.new name.now) result }
{
    folder.create(name)?;
    folder.append(name, text)
}

/// Writes two files, the second only when the first is whole.
#[tactic(auto, using(crate::proofs::Fronts::second_cut))]
pub fn write_both<F: Folder>(
    folder: &mut F,
    first: &str,
    first_text: &[u8],
    second: &str,
    second_text: &[u8],
) -> Result<(), Failed>
    requires { first.now ≢ second.now }
    ensures ok { OnOk result (Written first.now second.now first_text.now second_text.now
        (F.files folder.old) (F.files folder.new)) }
    ensures err { OnErr result (PartWritten first.now second.now first_text.now second_text.now
        (F.files folder.old) (F.files folder.new)) }
    ensures later { Later F.read_faults F.write_faults F.given folder.old folder.new }
    ensures cause { OnErr result (SomeRose (first.now ∷ second.now ∷ [])
        (F.write_faults folder.old) (F.write_faults folder.new)) }
{
    write_file(folder, first, first_text)?;
    write_file(folder, second, second_text)?;
    Ok(())
}
