//! Concrete states with doubly linked lists.

/// Files with failed obligations, and the concrete states that `witness` shows.
pub const WITNESSES_OF_DOUBLES: [(&str, &str, &str, u8); 14] = [
    // It leads back to nothing
    (
        "witness given",
        "tl, pv; w(x,l) [x != nil * dll(x,nil,l,nil)] { } [dll(x,x,l,nil)]",
        "witness w at 1:48 NotEqual\nx = @1\nl = @2\n@1 tl=@2 pv=nil\n@2 tl=nil pv=@1\nwant fails\n",
        1,
    ),
    // Two cells are left
    (
        "witness given",
        "tl, pv; kept(x, l) [dll(x,nil,l,nil)] { }",
        "witness kept at 1:41 Leak\nx = @1\nl = @2\n@1 tl=@2 pv=nil\n@2 tl=nil pv=@1\nwant fails\n",
        1,
    ),
    // One cell is
    (
        "witness given",
        "tl, pv; kept(x) [x != nil * dll(x,nil,x,nil)] { }",
        "witness kept at 1:49 Leak\nx = @1\n@1 tl=nil pv=nil\nwant fails\n",
        1,
    ),
    // Nothing, whose last cell is something
    (
        "witness given",
        "tl, pv; lost(x, l) { } [dll(x,nil,l,nil)]",
        "witness lost at 1:22 NotEqual\nx = nil\nl = @2\nwant fails\n",
        1,
    ),
    // Two lists, one behind the other
    (
        "witness given",
        "tl, pv; cat(x,m,y,l,z) [x != z * dll(x,nil,m,y) * dll(y,m,l,z)] { } [dll(x,nil,l,z)]",
        "witness cat at 1:67 EndNotAllocated\nx = @1\nm = @2\ny = @3\nl = @4\nz = @5\n@1 tl=@2 pv=nil\n@2 tl=@3 pv=@1\n@3 tl=@4 pv=@2\n@4 tl=@5 pv=@3\nwant holds\n",
        1,
    ),
    // One that ends at its own last cell
    (
        "witness given",
        "tl, pv; back(x, l) [x != l * dll(x,nil,l,l)] { }",
        "witness back at 1:48 Leak\nno witness\n",
        1,
    ),
    // One that was handed over and ends where it begins
    (
        "witness given",
        "tl, pv; between(x, m, y, l) [dll(x,nil,m,y) * y|->tl:nil * l == y] { } [dll(x,nil,l,nil)]",
        "witness between at 1:70 NotEqual\nno witness\n",
        1,
    ),
    // The cells are a list too
    (
        "witness given",
        "tl, pv; flat(x, l) [x != nil * dll(x,nil,l,nil)] { } [list(x)]",
        "witness flat at 1:52 NoAtom\nx = @1\nl = @2\n@1 tl=@2 pv=nil\n@2 tl=nil pv=@1\nwant holds\n",
        1,
    ),
    // And this list is doubly linked
    (
        "witness given",
        "tl, pv; deep(x) [x != nil * list(x)] { } [dll(x,nil,x,nil)]",
        "witness deep at 1:40 NoAtom\nx = @1\n@1 tl=nil pv=nil\nwant holds\n",
        1,
    ),
    // But not up to another cell
    (
        "witness given",
        "tl, pv; deep(x, l) [x != nil * list(x)] { } [dll(x,nil,l,nil)]",
        "witness deep at 1:43 NoAtom\nx = @1\nl = @2\n@1 tl=nil pv=nil\nwant fails\n",
        1,
    ),
    // A field that isn't known counts as nil
    (
        "witness given",
        "tl, pv; one(x;) { x = new(); x->tl = nil; } [dll(x,nil,x,nil)]",
        "witness one at 1:43 NotEqual\nx = @2\n@2 tl=nil pv=nil\nwant holds\n",
        1,
    ),
    // What was handed over is shown
    (
        "witness given",
        "tl, pv; rest(x, l, y) [x != nil * y|-> * dll(x,nil,l,nil)] { } [dll(x,nil,l,nil)]",
        "witness rest at 1:62 Leak\nx = @1\nl = @2\ny = @3\n@1 tl=@2 pv=nil\n@2 tl=nil pv=@1\n@3 tl=nil pv=nil\nwant fails\n",
        1,
    ),
    // The cell behind the only one
    (
        "witness given",
        "tl, pv; next(x, l) [x != nil * dll(x,nil,l,nil)] { local t; t = x->tl; t = t->tl; } [dll(x,nil,l,nil)]",
        "witness next at 1:72 NoCell\nx = @1\nl = @1\nt = nil\n@1 tl=nil pv=nil\nwant fails\n",
        1,
    ),
    // Nothing at all
    (
        "witness given",
        "tl, pv; f(x) [dll(nil,x,nil,x)] { x->tl = nil; }",
        "witness f at 1:35 NoCell\nx = nil\nwant fails\n",
        1,
    ),
];
