//! The selects of a chain of alternatives, which share a table.
ghost use Rattle.std.specs.Prelude.{◌≡◌, ◌<◌, [], IfOk, OnOk, drop, length, map};
ghost use Rattle.strat_code.specs.Code.{select};
ghost use Rattle.strat_code.specs.CodeOf.{case_of, cases_of};
ghost use Rattle.strat_compile.specs.ChainOf.{bodies_of};
ghost use Rattle.strat_compile.specs.Chains.{selects_from, selects_onto};
ghost use Rattle.strat_compile.specs.Emission.{Closes};
ghost use Rattle.strat_compile.specs.Output.{emitted_of, onto, place};
ghost use Rattle.strat_compile.specs.Tables.{IsTable};

use crate::chain::{Cases, Chain};
use crate::output::Output;
use std::alloc::{AllocError, Global};
use strat_code::{Case, Instr};

impl Output {
    /// Adds a table.
    #[tactic(auto, using(crate::proofs::TableLaws::is_table))]
    fn add_table(&mut self, cases: Vec<Case>) -> Result<usize, AllocError>
        ensures view { OnOk result (emitted_of self.new ≡ emitted_of self.old) }
        ensures table { IfOk result (λ table.
            IsTable self.new.tables.items table (map case_of cases.items)) }
    {
        let table = self.tables.len();
        self.tables.push(cases)?;
        Ok(table)
    }

    /// Puts a select in front.
    #[tactic(auto, using(crate::proofs::TableLaws::one_more), unfolding(crate::specs::Output::emitted_of))]
    fn emit_select(
        &mut self,
        nodes: usize,
        table: usize,
        skipped: usize,
        last: usize,
    ) -> Result<(), AllocError>
        requires { table < length self.old.tables.items }
        ensures view { OnOk result (emitted_of self.new ≡
            onto (select nodes (cases_of self.old.tables.items table skipped) last)
            (emitted_of self.old)) }
        ensures tables { self.new.tables ≡ self.old.tables }
    {
        self.instrs.push(Instr::Select {
            nodes,
            table,
            skipped,
            last,
        })?;
        Ok(())
    }

    /// Puts a select of these cases in front, which is charged `nodes` nodes, and after it one for the cases of each alternative
    /// but the first and those after them, one node each. They share one table.
    pub(crate) fn emit_selects(
        &mut self,
        nodes: usize,
        cases: Vec<Case>,
        skipped: &[usize],
        last: usize,
    ) -> Result<(), AllocError>
        ensures { OnOk result (emitted_of self.new ≡ (let cs = map case_of cases.items in
            onto (select nodes cs last)
            (selects_from (drop 1 skipped.now) cs last (emitted_of self.old)))) }
    {
        let others = skipped.len().saturating_sub(1);
        let table = self.add_table(cases)?;
        for index in (0..others).rev() {
            self.emit_select(1, table, skipped[index + 1], last)?;
        }
        self.emit_select(nodes, table, 0, last)
    }
}

/// Puts the selects of the alternatives in front, the first of which is charged `nodes` nodes. The alternatives leave the chain.
pub(crate) fn emit_chain(
    alloc: Global,
    out: &mut Output,
    nodes: usize,
    chain: &mut Chain,
) -> Result<(), AllocError>
    ensures view { OnOk result (emitted_of out.new ≡ (let o = emitted_of out.old in
        selects_onto nodes (bodies_of chain.old) (place o) chain.old.last o)) }
    ensures empty { OnOk result (bodies_of chain.new ≡ []) }
{
    let last = chain.last;
    let Cases { cases, skipped } = chain.cases(alloc, out.place())?;
    out.emit_selects(nodes, cases, skipped.as_slice(), last)
}

/// Puts selects in front where the chain has alternatives, which leave it: an arm that joins no chain comes in front of them.
#[tactic(auto, using(crate::proofs::ChoiceLaws::closes_none, crate::proofs::ChoiceLaws::selects_close))]
pub(crate) fn close(alloc: Global, out: &mut Output, chain: &mut Chain) -> Result<(), AllocError>
    ensures closed { OnOk result (Closes (bodies_of chain.old) chain.old.last (emitted_of out.old)
        (emitted_of out.new)) }
    ensures empty { OnOk result (bodies_of chain.new ≡ []) }
{
    if chain.is_empty() {
        return Ok(());
    }
    emit_chain(alloc, out, 1, chain)
}
