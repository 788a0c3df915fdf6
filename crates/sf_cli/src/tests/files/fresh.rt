//! Calls, with fields of the file's own: a new cell, whose value is passed on.

/// The file.
pub const FILE: &str = "val, next;
put(x; v) [emp] { x = new(); x->val = v; } [x|->val:v]
both(a; b) [b|->] { local t; put(t; 7); b->next = t; a = b; } [a|->next:_t * _t|->]
again(a; b) [b|->] { both(a; b); } [a|->next:_t * _t|->]
";
