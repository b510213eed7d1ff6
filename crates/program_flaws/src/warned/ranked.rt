//! A program with its ranks.

use effect_scan::{Member, Node, Scan, row_at};
use meta_model::Meta;
use rank_make::{Ranks, Solution};
use std::alloc::{AllocError, Global};

/// A program that has a certificate, with its ranks.
#[derive(Clone, Copy)]
pub struct Ranked<'p> {
    /// The program.
    pub meta: &'p Meta,
    /// Its nodes and the edges between them.
    pub scan: &'p Scan,
    /// The nodes' ranks and destroy sets: those of its least certificate.
    pub solution: &'p Solution,
}

impl<'p> Ranked<'p> {
    /// The program with these ranks, which are its own.
    pub fn of(meta: &'p Meta, ranks: &'p Ranks) -> Ranked<'p> {
        Ranked {
            meta,
            scan: &ranks.scan,
            solution: &ranks.solution,
        }
    }
}

impl Ranked<'_> {
    /// The nodes of the longest chain, by their numbers; of several chains the one whose nodes come first.
    pub fn deepest_chain(&self, alloc: Global) -> Result<Vec<usize>, AllocError> {
        let mut chain = Vec::new(alloc);
        let Some(first) = self.highest_node() else {
            return Ok(chain);
        };
        chain.push(first)?;
        let mut last = first;
        for rank in (0..self.solution.rank(first)).rev() {
            if let Some(node) = self.target_of_rank(last, rank) {
                chain.push(node)?;
                last = node;
            }
        }
        Ok(chain)
    }

    /// The nodes of a chain, by their numbers, from this one to the destruction with which an object of the class may be
    /// destroyed, where its destroy set holds the class.
    pub fn chain_to_destruction(
        &self,
        alloc: Global,
        from: usize,
        class: usize,
    ) -> Result<Vec<usize>, AllocError> {
        let mut chain = Vec::new(alloc);
        let mut next = Some(from);
        // No chain from a node has more edges than its rank says.
        for _ in 0..self.solution.rank(from).saturating_add(1) {
            let Some(node) = next else {
                break;
            };
            chain.push(node)?;
            next = if self.is_destruction_of(node, class) {
                None
            } else {
                self.target_destroying(node, class)
            };
        }
        Ok(chain)
    }

    /// Whether the destroy set of the node holds the class.
    pub fn destroys(&self, node: usize, class: usize) -> bool {
        self.solution.leads_to(node, class)
    }

    /// Whether objects of the class may be destroyed at once with the node.
    fn is_destruction_of(&self, node: usize, class: usize) -> bool {
        match self.scan.nodes().get(node) {
            Some(
                Node {
                    class: parent,
                    member: Member::Destruction,
                },
            ) => row_at(self.scan.destroys(), *parent).contains(&class),
            _ => false,
        }
    }

    /// The first of the nodes whose rank is the greatest.
    fn highest_node(&self) -> Option<usize> {
        let mut highest: Option<usize> = None;
        let mut most = 0usize;
        for node in 0..self.scan.nodes().len() {
            let rank = self.solution.rank(node);
            if highest.is_none() || rank > most {
                highest = Some(node);
                most = rank;
            }
        }
        highest
    }

    /// The first node of this rank to which an edge leads from the node.
    fn target_of_rank(&self, node: usize, rank: usize) -> Option<usize> {
        for target in self.scan.targets(node) {
            if self.solution.rank(*target) == rank {
                return Some(*target);
            }
        }
        None
    }

    /// The first node to which an edge leads from the node, and whose destroy set holds the class.
    fn target_destroying(&self, node: usize, class: usize) -> Option<usize> {
        for target in self.scan.targets(node) {
            if self.destroys(*target, class) {
                return Some(*target);
            }
        }
        None
    }
}
