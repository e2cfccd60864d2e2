//! The records of each package name.

ghost use Rattle.std.specs.Prelude.{◌≡◌, ◌++◌, ◌∷◌, [], map, IfOk, OnOk, IsTrue};
ghost use Rattle.std.specs.BTreeMap.{IsOrdered};
ghost use Rattle.std.specs.String.{string_cmp};
ghost use Rattle.std.specs.List.{All};
ghost use Rattle.channel_indexer.specs.Groups.{AreGroupsOf, InOrder, IsNamed};
ghost use Rattle.channel_indexer.specs.Grouped.{group_of, Adds, HaveRows, IsRun};

use shard_file::FileRecord;
use std::alloc::{AllocError, Global};
use std::collections::BTreeMap;

/// Puts records in the order of their file names; those of one file name stay as they stood.
pub(crate) fn sort(records: &mut Vec<FileRecord>) -> Result<(), AllocError>
    ensures in_order { OnOk result (InOrder records.old.items records.new.items) }
    ensures named { All IsNamed records.old.items → All IsNamed records.new.items }
{
    records.sort_by(|a, b| a.file.as_str().cmp(b.file.as_str()))
}

/// The records of each package name in lower case, each in the order in which they stand.
pub(crate) fn grouped(
    alloc: Global,
    records: Vec<FileRecord>,
) -> Result<BTreeMap<String, Vec<FileRecord>>, AllocError>
    requires { All IsNamed records.items }
    ensures { IfOk result (λ groups. AreGroupsOf records.items (map group_of groups.entries)) }
{
    let mut groups = BTreeMap::new(alloc);
    let mut run = Vec::new(alloc);
    for record in records {
        make_way(alloc, &mut groups, &mut run, &record)?;
        run.push(record)?;
    }
    add_run(alloc, &mut groups, &mut run)?;
    Ok(groups)
}

#[tactic(auto, using(crate::proofs::GroupLemmas::one_run))]
// Adds the run to the groups, unless the record goes on with it.
fn make_way(
    alloc: Global,
    groups: &mut BTreeMap<String, Vec<FileRecord>>,
    run: &mut Vec<FileRecord>,
    record: &FileRecord,
) -> Result<(), AllocError>
    requires run { IsRun run.old.items }
    requires ordered { IsOrdered string_cmp groups.old }
    requires some { HaveRows groups.old }
    ensures adds { OnOk result (Adds groups.old run.old.items groups.new run.new.items) }
    ensures run { OnOk result (IsRun (run.new.items ++ «record».now ∷ [])) }
{
    if goes_on(run, record) {
        return Ok(());
    }
    add_run(alloc, groups, run)
}

// Whether the record's package name is written as that of the first record of the run.
fn goes_on(run: &[FileRecord], record: &FileRecord) -> bool
    requires { IsRun run.now }
    ensures { IsTrue result → IsRun (run.now ++ «record».now ∷ []) }
{
    match run.first() {
        Some(first) => first.value.view().name() == record.value.view().name(),
        None => false,
    }
}

// Adds the records of a run, which are of one package, to the group of their name, and leaves none.
fn add_run(
    alloc: Global,
    groups: &mut BTreeMap<String, Vec<FileRecord>>,
    run: &mut Vec<FileRecord>,
) -> Result<(), AllocError>
    requires run { IsRun run.old.items }
    requires ordered { IsOrdered string_cmp groups.old }
    requires some { HaveRows groups.old }
    ensures adds { OnOk result (Adds groups.old run.old.items groups.new run.new.items) }
    ensures none { OnOk result (run.new.items ≡ []) }
{
    let Some(first) = run.first() else {
        return Ok(());
    };
    let name = first.value.view().name().to_ascii_lowercase(alloc)?;
    groups.entry(name)?.or_default().append(run)?;
    Ok(())
}
