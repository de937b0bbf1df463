//! A line of a chart.
ghost use Rattle.std.specs.Prelude.{◌≡◌, IfOk, None, Some, replicate};
ghost use Rattle.journal_chart.specs.Lines.{added, at, halved};
ghost use Rattle.journal_chart.specs.Picture.{says_next};

use crate::column::Column;
use crate::halving::halve;
use crate::span::Span;
use std::alloc::{AllocError, Global};
use std::marker::Model;

/// What a number was in the course of a history, in columns of as many moments each: contracts see it as the span of each
/// column, `None` where there was no number.
#[derive(Drop)]
pub struct Line {
    columns: Vec<Column>,
}

impl Model for Line {
    ghost use Rattle.std.specs.Prelude.{List, Option};
    ghost use Rattle.journal_chart.specs.declared.span.Span.{Span};

    ghost Value = { List (Option Span) };

    ghost view = { λ l. l.columns.items };
}

impl Line {
    /// So many columns without numbers.
    pub(crate) fn new(alloc: Global, columns: usize) -> Result<Line, AllocError>
        ensures { IfOk result (λ line. line ≡ replicate columns None) }
    {
        Ok(Line {
            columns: vec![in alloc; Column::none(); columns]?,
        })
    }

    /// Its columns, in order.
    pub fn columns(&self) -> &[Column]
        ensures { result.now ≡ self.now }
    {
        &self.columns
    }

    /// The column at a place, without numbers beyond the last.
    pub(crate) fn column_at(&self, place: usize) -> Column
        ensures { result ≡ at self.now place }
    {
        match self.columns.get(place) {
            Some(column) => *column,
            None => Column::none(),
        }
    }

    /// What the column at a place says, `None` beyond the last.
    pub(crate) fn at(&self, place: usize) -> Option<Span>
        ensures { result ≡ at self.now place }
    {
        self.column_at(place).span()
    }

    /// Whether the column at a place says what the next says.
    pub(crate) fn says_next(&self, place: u32) -> bool
        ensures { result ≡ says_next self.now place }
    {
        let (place, next) = (place as usize, place as usize + 1);
        // Both stand in the line nearly always, and are then compared where they stand.
        if next < self.columns.len() {
            return self.columns[place].is_same(self.columns[next]);
        }
        self.column_at(place).is_same(self.column_at(next))
    }

    /// Puts a number into the column at a place, if there is one.
    pub(crate) fn add(&mut self, place: usize, number: u32)
        ensures { self.new ≡ added place (Some number) self.old }
    {
        if let Some(column) = self.columns.get_mut(place) {
            *column = column.with(number);
        }
    }

    /// Makes each two columns one.
    pub(crate) fn halve(&mut self)
        ensures { self.new ≡ halved self.old }
    {
        halve(&mut self.columns);
    }
}
