// Index schemes.
ghost use Rattle.std.specs.Prelude.{◌≡◌, ◌<◌, [], IfOk, length, slice_index_or};
ghost use Rattle.nq_model.specs.Cells.{RowFits};
ghost use Rattle.stitcher.specs.Schemes.{Scheme, IsPath, IsLeaf, IsSlot, BasesAreTyped};

use nq_model::{ColumnType, List, Memory};
use rows::Rows;
use std::alloc::Global;

/// How the rows of flat answers name the bags that they stand in and hold. A scheme belongs to one
/// plain type. The numbers that its calls take count parts of that type from 0: paths in their
/// order, base parts and inner bags of the element at a path in label order. A row is taken by its
/// place among the rows in which it stands, so that an index is read with no copy of the row.
///
/// After Cheney, Lindley and Wadler, "Query Shredding", SIGMOD 2014.
pub trait IndexScheme {
    /// What names a bag.
    type Index: Ord + Drop;

    /// The scheme that the calls follow.
    ghost scheme: { Self → Scheme Self.Index };

    /// The columns of the answer at a path.
    fn columns(&self, alloc: Global, path: u64) -> Result<List<ColumnType>, Memory>
        requires { IsPath (scheme self.now) path }
        ensures { IfOk result (λ columns. columns ≡ (scheme self.now).columns path) };

    /// The column of a base part, counted from 1.
    fn base(&self, path: u64, leaf: u64) -> u64
        requires { IsLeaf (scheme self.now) path leaf }
        ensures { result ≡ (scheme self.now).base path leaf };

    /// The index of the whole value.
    fn top(&self) -> Self::Index
        ensures { result ≡ (scheme self.now).top };

    /// The index of the bag in which a row's element stands.
    fn outer(
        &self,
        alloc: Global,
        path: u64,
        rows: &Rows,
        row: usize,
    ) -> Result<Self::Index, Memory>
        requires path { IsPath (scheme self.now) path }
        requires row { row < length rows.now }
        requires fits { RowFits ((scheme self.now).columns path) (slice_index_or rows.now row []) }
        ensures { IfOk result (λ index.
            index ≡ (scheme self.now).outer path (slice_index_or rows.now row [])) };

    /// The index that a row gives for an inner bag.
    fn inner(
        &self,
        alloc: Global,
        path: u64,
        slot: u64,
        rows: &Rows,
        row: usize,
    ) -> Result<Self::Index, Memory>
        requires slot { IsSlot (scheme self.now) path slot }
        requires row { row < length rows.now }
        requires fits { RowFits ((scheme self.now).columns path) (slice_index_or rows.now row []) }
        ensures { IfOk result (λ index.
            index ≡ (scheme self.now).inner path slot (slice_index_or rows.now row [])) };

    /// Indexes are compared as their type compares them.
    ghost compares: { (s : Self) (i j : Self.Index) → (scheme s).is i j ≡ Self.Index.Eq.eq i j };

    /// The column of a base part is there and has its type.
    ghost bases_are_typed: { (s : Self) → BasesAreTyped (scheme s) };
}
