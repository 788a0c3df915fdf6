//! The texts of programs and of states.

/// A list is turned round.
pub(crate) const TURNED: &[u8] = b"
    rev(o; i) [list(i)] {
      local t;
      o = nil;
      while (i != nil) [list(o) * list(i)] { t = i->tl; i->tl = o; o = i; i = t; }
    } [list(o)]";

/// A list of two cells.
pub(crate) const TWO_CELLS: &[u8] = b"o = nil\ni = @1\n@1 tl=@2\n@2";

/// Two cells are taken from a list of free ones; one is taken while another is given back; and
/// something else is left where the list is to be.
pub(crate) const FREE_CELLS: &[u8] = b"
    resource mm (f) [list(f)]
    alloc(x;) [emp] {
      with mm when (true) { if (f == nil) { x = new(); } else { x = f; f = x->tl; } }
    } [x|->]
    dealloc(y) [y|->] { with mm when (true) { y->tl = f; f = y; } } [emp]
    both(x; y) [y|->] { alloc(x;) || dealloc(y); } [x|->]
    two(x, y;) [emp] { alloc(x;); alloc(y;); } [x|-> * y|->]
    some() [emp] { with mm when (f == nil) { } } [emp]
    bad() [emp] { with mm when (true) { f = 3; } } [emp]";

/// The cells of a tree are given up, both subtrees at once.
pub(crate) const FELLED: &[u8] = b"
    disp_tree(p) [tree(p)] {
      local i, j;
      if (p == nil) { } else {
        i = p->l;
        j = p->r;
        disp_tree(i) || disp_tree(j);
        dispose(p);
      }
    } [emp]";

/// The same by a precondition that tells of one cell, and of none of its subtrees.
pub(crate) const BARE: &[u8] = b"
    disp_tree(p) [p|->] {
      local i, j;
      if (p == nil) { } else {
        i = p->l;
        j = p->r;
        disp_tree(i) || disp_tree(j);
        dispose(p);
      }
    } [emp]";

/// A tree of three cells.
pub(crate) const SMALL_TREE: &[u8] = b"p = @1\n@1 l=@2 r=@3\n@2\n@3";

/// One of seven, with three levels.
pub(crate) const TREE_OF_SEVEN: &[u8] =
    b"p = @1\n@1 l=@2 r=@3\n@2 l=@4 r=@5\n@3 l=@6 r=@7\n@4\n@5\n@6\n@7";

/// For each cell of a list, which is given up, a cell is exchanged for the one that a resource has; two
/// tasks do so at once.
pub(crate) const EXCHANGED: &[u8] = b"
    resource mm (f) [f|->]
    swap(x;) [x|->] { local t; with mm when (true) { t = f; f = x; } x = t; } [x|->]
    each(x; y) [x|-> * list(y)] {
      local t;
      while (y != nil) [x|-> * list(y)] { t = y->tl; dispose(y); y = t; swap(x;); }
    } [x|->]
    both(x, z; y, w) [x|-> * z|-> * list(y) * list(w)] { each(x; y) || each(z; w); } [x|-> * z|->]";
