//! Laws over the definitions, each the contract of a function with no body.

ghost use Rattle.std.specs.Prelude.{◌≡◌, ℕ, List, true};
ghost use Rattle.channel_store.specs.Names.{is_place, is_store_name, input_name, index_name, are_shard_digits, shard_name};

/// The files of a place have store names: the one that is indexed, the index, and each shard.
pub fn files_of_a_place_have_store_names()
    ensures input { (place : List ℕ) → is_place place ≡ true
        → is_store_name (input_name place) ≡ true }
    ensures index { (place : List ℕ) → is_place place ≡ true
        → is_store_name (index_name place) ≡ true }
    ensures shard { (place digits : List ℕ) → is_place place ≡ true
        → are_shard_digits digits ≡ true → is_store_name (shard_name place digits) ≡ true }
{}
