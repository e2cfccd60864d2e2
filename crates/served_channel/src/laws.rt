//! Laws over the definitions, each the contract of a function.

ghost use Rattle.std.specs.Prelude.{◌≡◌, ℕ, List, Some, true};
ghost use Rattle.channel_store.specs.Names.{is_place};
ghost use Rattle.channel_store.specs.Store.{Files};
ghost use Rattle.channel_indexer.specs.Indexing.{IsIndexed};
ghost use Rattle.channel_indexer.specs.declared.index.Summary.{Summary};
ghost use Rattle.served_channel.specs.Back.{AreToldApart, ComesBack};

use channel_indexer::groups_have_the_rows;
use http_head::a_served_file_is_the_body;

/// After a place was indexed, each file that was put is given to a GET of its path, unless the store
/// fails, and is the body of its reply; the index lists each shard by its digest, and the shards
/// have the records of the file, each once.
///
/// It takes for granted that no two different shards of the place have one digest.
pub fn what_was_indexed_comes_back()
    ensures { (place : List ℕ) (told new : Files) (summary : Summary) → is_place place ≡ true
        → (done : IsIndexed place told (Some new) summary) → AreToldApart done.groups
        → ComesBack place done.stood done.groups new }
{
    a_served_file_is_the_body();
    groups_have_the_rows();
}
