//! Formulas, and the assignments that satisfy them.

ghost use Rattle.std.specs.Prelude.{◌≡◌, ◌↔◌, ◌≤◌, length, None, IsOk, IfOk, IfErr};
ghost use Rattle.serializability.specs.Formula.{Satisfies, IsInRange};
ghost use Rattle.serializability.specs.Decoded.{before, IsFormula};
ghost use Rattle.serializability.specs.Plain as spec;
ghost use Rattle.order_cnf.specs.Data.{cnf_of, IsFirstFalse};
ghost use Rattle.order_cnf.specs.Limits.{size_fault};
ghost use Rattle.order_cnf.specs.Shapes.{data_with, cnf_with};
ghost use Rattle.order_cnf.specs.Tables.{pairs_in};
ghost use Rattle.serializability.specs.declared.literal.TheConstants.{MAX_CLAUSES};
ghost use Rattle.serializability.specs.declared.node.TheConstants.{MAX_NODES};

use crate::clause::clause_is_true;
use crate::fault::CnfFault;
use crate::layout::{Clauses, Layout};
use crate::relation::Relation;
use serializability::{Literal, MAX_CLAUSES, NodeIx};
use std::alloc::Global;
use std::marker::Model;

/// A formula over the order of nodes 0 to n, in clauses of one to three literals, each of which is
/// made when it is asked for.
///
/// It has at most 1,000 nodes and 20,000,000 clauses, and each assignment that satisfies it stands
/// for an order of the nodes.
#[derive(Drop)]
pub struct Formula {
    layout: Layout,
    variables: u32,
    count: usize,
    /// How many choices it is made of.
    choices: usize,
}

impl Model for Formula {
    ghost use Rattle.order_cnf.specs.Data.{FormulaData};

    ghost Value = { FormulaData };

    ghost use Rattle.order_cnf.specs.Held.{data_of, IsHeld};

    ghost view = { data_of };

    ghost invariant = { IsHeld };
}

impl Formula {
    /// The formula of these clauses and so many variables and choices, where there are at most
    /// 20,000,000 clauses.
    pub(crate) fn of(layout: Layout, variables: u32, choices: usize) -> Result<Formula, CnfFault>
        requires sound { length layout.clauses ≤ MAX_CLAUSES
            → IsFormula (cnf_with layout variables) }
        requires numbered { length (pairs_in layout.relation) ≤ variables }
        requires few { variables ≤ 600500 }
        ensures formula { IfOk result (λ f. f ≡ data_with layout variables choices) }
        ensures fits { IfOk result (λ _. size_fault (cnf_with layout variables) ≡ None) }
        ensures fault { IfErr result (λ e. size_fault (cnf_with layout variables) ≡ Some e) }
    {
        let Some(count) = layout.count(MAX_CLAUSES) else {
            return Err(CnfFault::FormulaTooLarge);
        };
        Ok(Formula {
            layout,
            variables,
            count,
            choices,
        })
    }

    /// The number of nodes, n, beside node 0.
    pub fn nodes(&self) -> usize
        ensures count { result ≡ self.now.nodes }
        ensures few { result ≤ MAX_NODES }
        ensures sound { IsFormula (cnf_of self.now) }
    {
        let _invariant = self.variables;
        self.layout.relation().nodes()
    }

    /// The number of variables, which are numbered from 1.
    pub fn vars(&self) -> usize
        ensures count { result ≡ self.now.variables }
        ensures few { result ≤ 600500 }
    {
        self.variables as usize
    }

    /// The number of clauses.
    pub fn count(&self) -> usize
        ensures count { result ≡ length self.now.clauses }
        ensures few { result ≤ MAX_CLAUSES }
    {
        self.count
    }

    /// How many choices the formula is made of: the bipaths of a plain formula, the open choices of
    /// a reduced one, and none of the contradiction.
    pub fn choices(&self) -> usize
        ensures count { result ≡ self.now.choices }
    {
        self.choices
    }

    /// The clauses, in order.
    pub fn clauses(&self) -> Clauses<'_>
        ensures items { result ≡ self.now.clauses }
        ensures in_range { IsInRange (cnf_of self.now) }
    {
        self.layout.clauses()
    }

    /// Tests an assignment, a value for each variable. The error is the number of the first clause
    /// that is false, counted from 1.
    pub fn satisfied_by(&self, values: &[bool]) -> Result<(), usize>
        requires each_variable { length values.now ≡ self.now.variables }
        ensures satisfied { IsOk result ↔ Satisfies values.now (cnf_of self.now) }
        ensures first_false { IfErr result (IsFirstFalse values.now self.now.clauses) }
    {
        let _invariant = self.count();
        let mut number = 0;
        for clause in self.clauses() {
            number += 1;
            if !clause_is_true(values, clause) {
                return Err(number);
            }
        }
        Ok(())
    }

    /// Whether u stands before v, as it is known or as an assignment of the variables has it.
    pub fn stands_before(&self, values: &[bool], u: NodeIx, v: NodeIx) -> bool
        requires each_variable { length values.now ≡ self.now.variables }
        requires nodes { (u ≤ self.now.nodes) × (v ≤ self.now.nodes) }
        ensures value { result ≡ before (cnf_of self.now) values.now u v }
    {
        self.layout
            .relation()
            .stands_before(values, u.get(), v.get())
    }
}

/// A formula that no assignment satisfies, of one variable and no node beside node 0.
pub fn contradiction(alloc: Global) -> Result<Formula, CnfFault>
    ensures formula { IfOk result (λ f. cnf_of f ≡ spec.contradiction) }
    ensures choices { IfOk result (λ f. f.choices ≡ 0) }
    ensures fault { IfErr result (λ e. e ≡ CnfFault.Memory) }
{
    let literal = Literal {
        variable: 1,
        positive: true,
    };
    let negated = Literal {
        variable: 1,
        positive: false,
    };
    let units = vec![in alloc; literal, negated]?;
    let layout = Layout::new(
        Relation::unknown(alloc, 0)?,
        0,
        units,
        Vec::new(alloc),
        Vec::new(alloc),
        Vec::new(alloc),
    );
    Formula::of(layout, 1, 0)
}
