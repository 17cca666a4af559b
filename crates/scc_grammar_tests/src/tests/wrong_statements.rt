//! Statements that are none, with the place on the third line at which they cease to be some.

/// Each stands alone in the body of a function; the types are those of the statements that are read.
pub const WRONG_STATEMENTS: &str = "
else ; => 3:1 E201
if (a) ; ; else ; => 3:12 E201
if (a) else ; => 3:8 E201
if a ; => 3:4 E201
if () ; => 3:5 E201
if (a; => 3:6 E201
if (int x) ; => 3:9 E201
if (a) } => 3:8 E201
if (a = 1) ; => 3:7 E201
if (a, b) ; => 3:6 E201
switch (x) ; => 3:12 E201
switch (x) { case: ; } => 3:18 E201
switch (x) { case : ; } => 3:19 E201
switch (x) { case 1; } => 3:20 E201
switch (x) { default 1: ; } => 3:22 E201
switch (x) { { case 1: ; } } => 3:16 E201
case 1: ; => 3:1 E201
default: ; => 3:1 E201
while {} => 3:7 E201
while (a) } => 3:11 E201
do ; } => 3:6 E201
do ; while (a) } => 3:16 E201
do x() while (a); => 3:8 E201
do ; x(); => 3:6 E201
for (;) ; => 3:7 E201
for i = 0; => 3:5 E201
for (int i = 0) ; => 3:15 E201
for (i = 0, j = 0;;) ; => 3:11 E201
for (; x = 1;) ; => 3:10 E201
for (; int x;) ; => 3:12 E201
for (;; int i = 0) ; => 3:13 E201
for (;; const int i = 0) ; => 3:9 E201
for (;; i++;) ; => 3:12 E201
for (x;;) ; => 3:7 E201
for (;;a) ; => 3:9 E201
for (int i) ; => 3:11 E201
break x; => 3:7 E201
continue(1); => 3:9 E201
return int x; => 3:12 E201
return const C; => 3:8 E201
return \"t\"; => 3:8 E201
return new C(); => 3:8 E201
return x = 1; => 3:10 E201
return C; => 3:9 E201
return x<y>::z; => 3:12 E201
return (int) ; => 3:14 E201
return a ? b; => 3:13 E201
return a ? : c; => 3:12 E201
return x.1; => 3:10 E201
return x.int; => 3:10 E201
return x[]; => 3:10 E201
return f(a,); => 3:12 E201
return f(,a); => 3:10 E201
return f(a; => 3:11 E201
return (a,); => 3:11 E201
return (); => 3:9 E201
return a +; => 3:11 E201
return a b; => 3:10 E201
return concat(a); => 3:16 E201
return concat(a, b, c); => 3:19 E201
return concat a; => 3:15 E201
return static_cast(x); => 3:19 E201
return static_cast<int> x; => 3:25 E201
return static_cast<x>(y); => 3:20 E201
return x::1; => 3:11 E201
return C::int; => 3:11 E201
return int::x; => 3:11 E201
return sc_uint<8>::x; => 3:18 E201
return V<8>; => 3:12 E201
return V<8>.x; => 3:12 E201
return C + 1; => 3:10 E201
return C.x; => 3:9 E201
return (C + 1); => 3:11 E201
return (C, x); => 3:10 E201
return (C); => 3:11 E201
return (C x); => 3:11 E201
return (const C(x)); => 3:16 E201
return (const C::x); => 3:16 E201
return x->*y; => 3:11 E201
return x ?; => 3:11 E201
wait; => 3:5 E201
wait(1, 2); => 3:7 E201
wait(int x); => 3:10 E201
SC_METHOD(1); => 3:11 E201
SC_METHOD(f, x); => 3:12 E201
SC_THREAD f; => 3:11 E201
SC_CTHREAD(f); => 3:13 E201
SC_CTHREAD(f, ); => 3:15 E201
sensitive; => 3:10 E201
sensitive(a); => 3:10 E201
sensitive << a < b; => 3:16 E201
sensitive << ; => 3:14 E201
sensitive << a ? b : c; => 3:16 E201
dont_initialize(x); => 3:17 E201
dont_initialize; => 3:16 E201
reset_signal_is(rst); => 3:20 E201
reset_signal_is(rst, true, x); => 3:26 E201
async_reset_signal_is(); => 3:23 E201
x; => 3:2 E201
x y; => 3:3 E201
x * y; => 3:3 E201
x < 8; => 3:3 E201
x + y = 1; => 3:3 E201
-x; => 3:3 E201
-f(); => 3:5 E201
(f()); => 3:6 E201
(x; => 3:3 E201
(C) f(); => 3:8 E201
x = 1, y = 2; => 3:6 E201
x = y = z; => 3:7 E201
x = \"t\"; => 3:5 E201
x = new; => 3:8 E201
x = new x(); => 3:9 E201
x = new C; => 3:10 E201
x = new const C(); => 3:9 E201
x = new C(; => 3:11 E201
x = new C().y; => 3:12 E201
new C(); => 3:1 E201
\"t\"; => 3:1 E201
= 1; => 3:1 E201
) ; => 3:1 E201
++; => 3:3 E201
++ ++x; => 3:4 E201
x++ ++; => 3:5 E201
x++ = 1; => 3:5 E201
++x = 1; => 3:5 E201
x ? y : z; => 3:3 E201
x = ; => 3:5 E201
x = 1 2; => 3:7 E201
x == y; => 3:3 E201
C; => 3:2 E201
C(x); => 3:5 E201
int; => 3:4 E201
int(x); => 3:7 E201
int 1; => 3:5 E201
int x y; => 3:7 E201
int x[; => 3:7 E201
int x[]; => 3:7 E201
int x = {1}; => 3:9 E201
int x = new C(); => 3:9 E201
int x(\"t\"); => 3:7 E201
int x(); => 3:7 E201
int x(1, 2); => 3:8 E201
int x = 1, 2; => 3:12 E201
int ** p; => 3:6 E201
int &; => 3:6 E201
int x,; => 3:7 E201
int x::y = 1; => 3:6 E201
const const int x = 1; => 3:7 E201
const C(x); => 3:8 E201
const C::x = 1; => 3:8 E201
const x y; => 3:7 E201
static int x = 1; => 3:1 E201
using namespace std; => 3:1 E201
typedef int J; => 3:1 E201
struct S {}; => 3:1 E201
char x; => 3:1 E201
void x; => 3:1 E201
unsigned int64 x; => 3:10 E201
short short x; => 3:7 E201
signed bool x; => 3:8 E201
C<8> x; => 3:2 E201
I<8> x; => 3:2 E201
sc_uint x; => 3:9 E201
sc_uint<> x; => 3:9 E201
sc_uint<8; => 3:10 E201
sc_uint<8, 9> x; => 3:10 E201
sc_uint<1 >> 2> x; => 3:11 E201
sc_uint<a ? b : c> x; => 3:11 E201
sc_uint<1 < 2> x; => 3:11 E201
sc_uint<V<1> > x; => 3:14 E201
sc_uint<V<1>> x; => 3:12 E201
sc_in<x> y; => 3:7 E201
sc_in<8> y; => 3:7 E201
sc_in<bool, int> x; => 3:11 E201
sc_in<bool>> x; => 3:11 E201
sc_vector<sc_signal<bool>>> x; => 3:27 E201
V<8>> x; => 3:4 E201
V<8, > x; => 3:6 E201
V<1 >> 2> x; => 3:5 E201
V<x y> z; => 3:5 E201
V<x < y> z; => 3:5 E201
V<const C(1)> x; => 3:10 E201
V<(C)> x; => 3:6 E201
V<\"t\"> x; => 3:3 E201
W x; => 3:3 E201
A x; => 3:3 E201
";
