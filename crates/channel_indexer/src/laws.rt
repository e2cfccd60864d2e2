//! Laws over the definitions, each the contract of a function with no body.

ghost use Rattle.std.specs.Prelude.{◌≡◌, ◌<◌, List, ℕ, Some, length};
ghost use Rattle.std.specs.List.{All, flat_map};
ghost use Rattle.std.specs.List.Sorted.{IsPermutation, IsStrictlySortedBy};
ghost use Rattle.shard_file.specs.Rows.{Row};
ghost use Rattle.shard_file.specs.Writing.{row_cmp, shard_bytes};
ghost use Rattle.gateway_words.specs.Limits.{most_served_bytes};
ghost use Rattle.channel_store.specs.Store.{Files};
ghost use Rattle.channel_indexer.specs.declared.fault.IndexFault.{IndexFault};
ghost use Rattle.channel_indexer.specs.Groups.{Group, AreGroupsOf, InOrder};
ghost use Rattle.channel_indexer.specs.Indexing.{SaysGroups, IsIndexable, IsIndexed, PlaceFault, StopsAt};
ghost use Rattle.channel_indexer.specs.Shards.{IsFit};
ghost use Rattle.channel_indexer.specs.Standing.{Stands, StandsOrEmpty};
ghost use Rattle.channel_indexer.specs.declared.index.Summary.{Summary};

/// The rows of all groups together are the rows that were grouped.
pub fn groups_have_the_rows()
    ensures { (rows : List Row) (groups : List Group) → AreGroupsOf rows groups
        → IsPermutation rows (flat_map (λ g. g.rows) groups) }
{}

/// Rows have one order by their file names.
pub fn rows_have_one_order()
    ensures { (stood rows more : List Row) → InOrder stood rows → InOrder stood more
        → rows ≡ more }
{}

/// Rows have one grouping by the names of their packages.
pub fn rows_have_one_grouping()
    ensures { (rows : List Row) (groups more : List Group) → AreGroupsOf rows groups
        → AreGroupsOf rows more → groups ≡ more }
{}

/// The rows of each group that a file says ascend by their file names, those of packages first. So
/// what is too long of a shard is a length or the number of its rows, and never their order.
pub fn rows_of_groups_ascend()
    ensures { (bytes : List ℕ) (stood : List Row) (groups : List Group)
        → SaysGroups bytes stood groups → All (λ g. IsStrictlySortedBy row_cmp g.rows) groups }
{}

/// Some bytes say at most one list of records and one list of groups.
pub fn a_file_says_one_indexing()
    ensures stood { (bytes : List ℕ) (stood others : List Row) (groups more : List Group)
        → SaysGroups bytes stood groups → SaysGroups bytes others more → stood ≡ others }
    ensures groups { (bytes : List ℕ) (stood others : List Row) (groups more : List Group)
        → SaysGroups bytes stood groups → SaysGroups bytes others more → groups ≡ more }
{}

/// A place has at most one fault, and none where it can be indexed.
pub fn a_place_has_one_fault()
    ensures one { (place : List ℕ) (told : Files) (f g : IndexFault)
        → PlaceFault place told f → PlaceFault place told g → f ≡ g }
    ensures not_both { (place : List ℕ) (told : Files) (stood : List Row) (groups : List Group)
        (f : IndexFault) → IsIndexable place told stood groups → PlaceFault place told f → ⊥ }
{}

/// A place that stands, or that has no index, does so after an indexing, wherever it stopped.
pub fn a_stop_keeps_the_place()
    ensures { (place : List ℕ) (told new : Files) → StandsOrEmpty place told
        → StopsAt place told (Some new) → StandsOrEmpty place new }
{}

/// A place that was indexed stands: its index has a reading, and each digest that it lists has its
/// file, whose bytes have that digest.
pub fn an_indexed_place_stands()
    ensures { (place : List ℕ) (told new : Files) (summary : Summary)
        → IsIndexed place told (Some new) summary → Stands place new }
{}

/// A group of records without a fit shard has more bytes than a shard may have. So what is refused
/// as too long is too long, and for no other cause.
pub fn what_is_not_fit_is_too_long()
    ensures { (bytes : List ℕ) (stood : List Row) (groups : List Group)
        → SaysGroups bytes stood groups
        → All (λ g. (IsFit g → ⊥) → most_served_bytes < length (shard_bytes g.rows)) groups }
{}
