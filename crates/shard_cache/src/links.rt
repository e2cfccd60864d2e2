//! The order of use, as nodes that are linked both ways in one vector.

ghost use Rattle.std.specs.Prelude.{◌≡◌, ◌+◌, ◌<◌, ◌∷◌, true, false, [], length, vec_len, OnOk, OnErr};
ghost use Rattle.std.specs.Option.{ForSome};
ghost use Rattle.shard_cache.specs.Recency.{is_listed, without, only};
ghost use Rattle.shard_cache.specs.Linked.{order_of, AreSound, Changes, SetsOlder, SetsNewer};

use std::alloc::{AllocError, Global};

/// The neighbours of a row in the order of use, and its size. They mean nothing where the row isn't
/// listed.
#[derive(Clone, Copy, Drop)]
pub(crate) struct Node {
    newer: Option<u64>,
    older: Option<u64>,
    pub(crate) size: u64,
}

/// A node for each row, and the two ends of the order.
#[derive(Drop)]
pub(crate) struct Links {
    pub(crate) nodes: Vec<Node>,
    newest: Option<u64>,
    pub(crate) oldest: Option<u64>,
}

impl Links {
    /// Links of no row.
    pub(crate) fn new(alloc: Global) -> Links
        ensures sound { AreSound result }
        ensures order { order_of result ≡ [] }
        ensures rows { result.nodes.items ≡ [] }
    {
        Links {
            nodes: Vec::new(alloc),
            newest: None,
            oldest: None,
        }
    }

    // Writes the node of a row.
    fn write(&mut self, row: u64, node: Node)
        requires { row < vec_len self.old.nodes }
        ensures node { Changes self.old.nodes.items self.new.nodes.items row node }
        ensures rows { vec_len self.new.nodes ≡ vec_len self.old.nodes }
        ensures newest { self.new.newest ≡ self.old.newest }
        ensures oldest { self.new.oldest ≡ self.old.oldest }
    {
        self.nodes[row as usize] = node;
    }

    // Makes `older` what comes behind a row, or the first of all where there is no row.
    fn set_older(&mut self, row: Option<u64>, older: Option<u64>)
        requires { ForSome row (λ row. row < vec_len self.old.nodes) }
        ensures sets { SetsOlder self.old self.new row older }
        ensures rows { vec_len self.new.nodes ≡ vec_len self.old.nodes }
    {
        match row {
            Some(row) => {
                let node = self.nodes[row as usize];
                self.write(row, Node { older, ..node });
            }
            None => self.newest = older,
        }
    }

    // Makes `newer` what comes before a row, or the last of all where there is no row.
    fn set_newer(&mut self, row: Option<u64>, newer: Option<u64>)
        requires { ForSome row (λ row. row < vec_len self.old.nodes) }
        ensures sets { SetsNewer self.old self.new row newer }
        ensures rows { vec_len self.new.nodes ≡ vec_len self.old.nodes }
    {
        match row {
            Some(row) => {
                let node = self.nodes[row as usize];
                self.write(row, Node { newer, ..node });
            }
            None => self.oldest = newer,
        }
    }

    /// Takes a row out of the order, and returns its size. Two neighbours change.
    pub(crate) fn unlink(&mut self, row: u64) -> u64
        requires sound { AreSound self.old }
        requires listed { is_listed row (order_of self.old) ≡ true }
        ensures sound { AreSound self.new }
        ensures order { order_of self.new ≡ without row (order_of self.old) }
        ensures size { only row (order_of self.old) ≡ (row, result) ∷ [] }
        ensures rows { vec_len self.new.nodes ≡ vec_len self.old.nodes }
    {
        let node = self.nodes[row as usize];
        self.set_older(node.newer, node.older);
        self.set_newer(node.older, node.newer);
        node.size
    }

    /// Puts a row that isn't listed in front of all. Its node and one neighbour change.
    pub(crate) fn put_first(&mut self, row: u64, size: u64)
        requires sound { AreSound self.old }
        requires unlisted { is_listed row (order_of self.old) ≡ false }
        requires below { row < vec_len self.old.nodes }
        requires room { length (order_of self.old) < vec_len self.old.nodes }
        ensures sound { AreSound self.new }
        ensures order { order_of self.new ≡ (row, size) ∷ order_of self.old }
        ensures rows { vec_len self.new.nodes ≡ vec_len self.old.nodes }
    {
        let older = self.newest;
        self.write(
            row,
            Node {
                newer: None,
                older,
                size,
            },
        );
        self.set_newer(older, Some(row));
        self.newest = Some(row);
    }

    /// Makes room for one row more, which isn't listed.
    pub(crate) fn grow(&mut self) -> Result<(), AllocError>
        requires sound { AreSound self.old }
        ensures sound { AreSound self.new }
        ensures order { order_of self.new ≡ order_of self.old }
        ensures ok { OnOk result (vec_len self.new.nodes ≡ vec_len self.old.nodes + 1) }
        ensures err { OnErr result (vec_len self.new.nodes ≡ vec_len self.old.nodes) }
    {
        self.nodes.push(Node {
            newer: None,
            older: None,
            size: 0,
        })?;
        Ok(())
    }
}
