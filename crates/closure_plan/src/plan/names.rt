//! The names that a shard reaches.

ghost use Rattle.std.specs.Prelude.{◌≡◌, ◌==◌, ◌||◌, ◌++◌, ◌∷◌, [], Ok, map, slice_get, IfOk, IfSome, OnOk};
ghost use Rattle.std.specs.List.{filter, flat_map, list_all};
ghost use Rattle.std.specs.List.Sorted.{IsPermutation};
ghost use Rattle.std.specs.Char.{to_ascii_lowercase};
ghost use Rattle.std.specs.Option.{option_map, option_to_list};
ghost use Rattle.conda_name.specs.Name.{lower_case, name_of};
ghost use Rattle.conda_record.specs.View.{seen};
ghost use Rattle.shard_file.specs.Seen.{row_seen};
ghost use Rattle.closure_plan.specs.Names.{has_name};
ghost use Rattle.closure_plan.specs.Given.{deps_if, deps_of, given_of, gives, names_if, names_of_text};
ghost use Rattle.closure_plan.specs.Fresh.{AreThere, Grows, is_that, stands_in};
ghost use Rattle.closure_plan.specs.Giving.{reached_by};

use crate::holders::{LeafHolder, PinHolder};
use crate::listing::Listing;
use crate::plan::Plan;
use crate::plan::order::search;
use conda_name::{Name, dependency_name};
use conda_record::RecordView;
use shard_file::{Shard, ShardRow};
use std::alloc::{AllocError, Global};

// The most texts of a record that are taken as they stand.
const FEW_TEXTS: usize = 64;

impl<P: PinHolder, H: LeafHolder> Plan<P, H> {
    // The names that a shard reaches and that aren't listed.
    pub(crate) fn fresh(
        &self,
        slot: usize,
        name: &Name,
        shard: &Shard,
    ) -> Result<Vec<Name>, AllocError>
        ensures { IfOk result (λ fresh. Grows self.now.known.names [] fresh.items
            (reached_by self.now.known.request slot name.now shard.now.rows)) }
    {
        if self.sources.request.flat {
            return Ok(Vec::new(*self.names.allocator()));
        }
        self.new_names(slot, name, shard)
    }

    // The names that aren't listed, of those that the given rows of a shard depend on.
    fn new_names(&self, slot: usize, name: &Name, shard: &Shard) -> Result<Vec<Name>, AllocError>
        ensures { IfOk result (λ fresh. Grows self.now.known.names [] fresh.items
            (flat_map deps_of (given_of self.now.known.request slot name.now shard.now.rows))) }
    {
        let names = self.names_of_rows(slot, name, shard)?;
        Ok(names.into_names())
    }

    // The names that aren't listed, of those that the rows of a shard depend on that pass.
    fn names_of_rows(&self, slot: usize, name: &Name, shard: &Shard) -> Result<Listing, AllocError>
        ensures { IfOk result (λ fresh. Grows self.now.known.names [] fresh
            (flat_map deps_of (filter (gives self.now.known.request slot name.now
            shard.now.rows) shard.now.rows))) }
    {
        let asked = self.sources.asked(name);
        let mut fresh = Listing::new(*self.names.allocator());
        let mut before = None;
        for i in 0..shard.len() {
            let row = self.sources.given(slot, name, asked, shard, i);
            before = self.add_row(row, before, &mut fresh)?;
        }
        Ok(fresh)
    }

    // Adds the names that a row depends on, where there is one, and gives the last record that was added.
    // Most rows depend on what the row before them does, so its texts are looked at first.
    fn add_row<'a>(
        &self,
        row: Option<ShardRow<'a>>,
        before: Option<RecordView<'a>>,
        fresh: &mut Listing,
    ) -> Result<Option<RecordView<'a>>, AllocError>
        requires { IfSome before (λ v. AreThere self.now.known.names fresh.old
            (flat_map names_of_text (seen v).depends)) }
        ensures grows { OnOk result (Grows self.now.known.names fresh.old fresh.new
            (deps_if (option_map (λ r. row_seen r) row.entry))) }
        ensures there { IfOk result (λ last. IfSome last (λ v. AreThere self.now.known.names
            fresh.new (flat_map names_of_text (seen v).depends))) }
    {
        match row {
            Some(row) => {
                self.add_deps(row.view, before, fresh)?;
                Ok(Some(row.view))
            }
            None => Ok(before),
        }
    }

    // Adds the names that a record depends on, where those of the record before it are there.
    fn add_deps(
        &self,
        view: RecordView<'_>,
        before: Option<RecordView<'_>>,
        fresh: &mut Listing,
    ) -> Result<(), AllocError>
        requires { IfSome before (λ v. AreThere self.now.known.names fresh.old
            (flat_map names_of_text (seen v).depends)) }
        ensures { OnOk result (Grows self.now.known.names fresh.old fresh.new
            (flat_map names_of_text (seen view.entry).depends)) }
    {
        if view.depends_len() <= FEW_TEXTS {
            return self.add_few(view, before, fresh);
        }
        self.add_many(view, fresh)
    }

    // The same, text by text as they stand.
    fn add_few(
        &self,
        view: RecordView<'_>,
        before: Option<RecordView<'_>>,
        fresh: &mut Listing,
    ) -> Result<(), AllocError>
        requires { IfSome before (λ v. AreThere self.now.known.names fresh.old
            (flat_map names_of_text (seen v).depends)) }
        ensures { OnOk result (Grows self.now.known.names fresh.old fresh.new
            (flat_map names_of_text (seen view.entry).depends)) }
    {
        for i in 0..view.depends_len() {
            self.add_at(view, before, i, fresh)?;
        }
        Ok(())
    }

    // The same in the order of the texts: so a new name goes behind those that were added before it, or
    // near their end, and no name is moved many times.
    fn add_many(&self, view: RecordView<'_>, fresh: &mut Listing) -> Result<(), AllocError>
        ensures { OnOk result (Grows self.now.known.names fresh.old fresh.new
            (flat_map names_of_text (seen view.entry).depends)) }
    {
        let texts = sorted_texts(*self.names.allocator(), view)?;
        self.add_texts(&texts, fresh)
    }

    // Adds the names that texts are about.
    fn add_texts(&self, texts: &[&str], fresh: &mut Listing) -> Result<(), AllocError>
        ensures { OnOk result (Grows self.now.known.names fresh.old fresh.new
            (flat_map names_of_text (map (λ t. t.now) texts.now))) }
    {
        for text in texts {
            self.add_text(text, fresh)?;
        }
        Ok(())
    }

    // Adds the name of the `depends` text of a place, where those of the record before it are there.
    fn add_at(
        &self,
        view: RecordView<'_>,
        before: Option<RecordView<'_>>,
        i: usize,
        fresh: &mut Listing,
    ) -> Result<(), AllocError>
        requires { IfSome before (λ v. AreThere self.now.known.names fresh.old
            (flat_map names_of_text (seen v).depends)) }
        ensures { OnOk result (Grows self.now.known.names fresh.old fresh.new
            (names_if (slice_get (seen view.entry).depends i))) }
    {
        match view.depend(i) {
            Some(text) => self.add_text_unless(text, before, i, fresh),
            None => Ok(()),
        }
    }

    // Adds the name that a text is about, unless the record before, whose names are there, has the text
    // at the same place.
    fn add_text_unless(
        &self,
        text: &str,
        before: Option<RecordView<'_>>,
        i: usize,
        fresh: &mut Listing,
    ) -> Result<(), AllocError>
        requires { IfSome before (λ v. AreThere self.now.known.names fresh.old
            (flat_map names_of_text (seen v).depends)) }
        ensures { OnOk result (Grows self.now.known.names fresh.old fresh.new
            (names_of_text text.now)) }
    {
        if stands_in(before, i, text) {
            return Ok(());
        }
        self.add_text(text, fresh)
    }

    // Adds the name that a text is about.
    fn add_text(&self, text: &str, fresh: &mut Listing) -> Result<(), AllocError>
        ensures { OnOk result (Grows self.now.known.names fresh.old fresh.new
            (names_of_text text.now)) }
    {
        match dependency_name(text) {
            Some(dep) => self.add_name(dep, fresh),
            None => Ok(()),
        }
    }

    // Adds the name of a text, where it isn't listed.
    fn add_name(&self, dep: &str, fresh: &mut Listing) -> Result<(), AllocError>
        requires { name_of dep.now ≡ Ok (lower_case dep.now) }
        ensures { OnOk result (Grows self.now.known.names fresh.old fresh.new
            (lower_case dep.now ∷ [])) }
    {
        if is_lower_case(dep.as_bytes()) {
            return self.add_lower(dep, fresh);
        }
        let name = read_name(*self.names.allocator(), dep)?;
        self.add_new(name, fresh)
    }

    // The same, where the text is the name: no memory is taken for one that is listed.
    fn add_lower(&self, dep: &str, fresh: &mut Listing) -> Result<(), AllocError>
        requires reads { name_of dep.now ≡ Ok (lower_case dep.now) }
        requires lower { lower_case dep.now ≡ dep.now }
        ensures { OnOk result (Grows self.now.known.names fresh.old fresh.new
            (lower_case dep.now ∷ [])) }
    {
        if self.is_listed(dep, fresh) {
            return Ok(());
        }
        let name = read_name(*self.names.allocator(), dep)?;
        fresh.push(name)?;
        Ok(())
    }

    // Adds a name, where it isn't listed.
    fn add_new(&self, name: Name, fresh: &mut Listing) -> Result<(), AllocError>
        ensures { OnOk result (Grows self.now.known.names fresh.old fresh.new (name
            ∷ [])) }
    {
        if self.is_listed(name.as_str(), fresh) {
            return Ok(());
        }
        fresh.push(name)?;
        Ok(())
    }

    // Whether a name is listed or among others.
    fn is_listed(&self, name: &str, others: &Listing) -> bool
        ensures { result ≡ (has_name self.now.known.names name.now || has_name others.now
            name.now) }
    {
        search(&self.names, &self.order, name.as_bytes()).is_ok() || others.has(name)
    }
}

// The `depends` of a record, in the order of the texts.
fn sorted_texts<'a>(alloc: Global, view: RecordView<'a>) -> Result<Vec<&'a str>, AllocError>
    ensures { IfOk result (λ texts. IsPermutation (seen view.entry).depends (map (λ t. t.now)
        texts.items)) }
{
    let mut texts = texts_of(alloc, view)?;
    texts.sort_unstable();
    Ok(texts)
}

// The `depends` of a record, as they stand.
fn texts_of<'a>(alloc: Global, view: RecordView<'a>) -> Result<Vec<&'a str>, AllocError>
    ensures { IfOk result (λ texts. map (λ t. t.now) texts.items ≡ (seen view.entry).depends) }
{
    let mut texts = Vec::with_capacity(alloc, view.depends_len())?;
    for i in 0..view.depends_len() {
        push_if(view.depend(i), &mut texts)?;
    }
    Ok(texts)
}

// Adds a text behind others, where there is one.
fn push_if<'a>(text: Option<&'a str>, texts: &mut Vec<&'a str>) -> Result<(), AllocError>
    ensures { OnOk result (texts.new.items ≡ texts.old.items ++ option_to_list text.entry) }
{
    match text {
        Some(text) => {
            texts.push(text)?;
            Ok(())
        }
        None => Ok(()),
    }
}

// Whether a text is in lower case.
fn is_lower_case(text: &[u8]) -> bool
    ensures { result ≡ list_all (λ b. b == to_ascii_lowercase b) text.now }
{
    text.iter().all(|b| *b == b.to_ascii_lowercase())
}

// Whether a text stands at a place of the `depends` of a record, where there is one.
fn stands_in(before: Option<RecordView<'_>>, i: usize, text: &str) -> bool
    ensures { result ≡ stands_in i text.now (option_map (λ v. (seen v).depends) before.entry) }
{
    match before {
        Some(view) => is_that(text, view.depend(i)),
        None => false,
    }
}

// Whether a text is the one that is there.
fn is_that(text: &str, other: Option<&str>) -> bool
    ensures { result ≡ is_that text.now (option_map (λ t. t.now) other.entry) }
{
    match other {
        Some(other) => other == text,
        None => false,
    }
}

// The name of a text that is one.
fn read_name(alloc: Global, text: &str) -> Result<Name, AllocError>
    requires { name_of text.now ≡ Ok (lower_case text.now) }
    ensures { IfOk result (λ name. name ≡ lower_case text.now) }
{
    match Name::read(alloc, text) {
        Ok(name) => Ok(name),
        Err(_) => Err(AllocError),
    }
}
