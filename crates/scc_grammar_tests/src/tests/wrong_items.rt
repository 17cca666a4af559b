//! Files that are none, with the place on the second line at which they cease to be some.

/// Each stands behind the declarations of the types `C`, `V`, `P`, `T`, `I` and `E`.
pub const WRONG_ITEMS: &str = "
int => 2:4 E201
; => 2:1 E201
x => 2:2 E201
x y => 2:3 E201
x(); => 2:2 E201
x<8>::x() {} => 2:2 E201
using x; => 2:7 E201
using namespace C; => 2:17 E201
using namespace std => 2:20 E201
typedef J K; => 2:9 E201
typedef int *J; => 2:13 E201
typedef int J, K; => 2:14 E201
typedef K K; => 2:9 E201
typedef int C::x; => 2:14 E201
typedef void J; => 2:9 E201
enum F { }; => 2:10 E201
enum F { G, }; => 2:13 E201
enum F; => 2:7 E201
enum int { G }; => 2:6 E201
enum F { 1 }; => 2:10 E201
enum F { G } x; => 2:14 E201
enum F { G = }; => 2:14 E201
enum F { G H }; => 2:12 E201
enum F { G = \"t\" }; => 2:14 E201
static int x = 1; => 2:14 E201
static x(); => 2:8 E201
const int x; => 2:12 E201
const int *x = 1; => 2:11 E201
const x y = 1; => 2:7 E201
int x = 1; => 2:7 E201
int x; => 2:6 E201
int *f(); => 2:5 E201
const int x(1); => 2:13 E201
const const int f(); => 2:18 E201
const void f(); => 2:7 E201
inline const int x = 1; => 2:20 E201
const int x = new C(); => 2:15 E201
const int x = {1}; => 2:15 E201
static void C::f() {} => 2:14 E201
void C::f(); => 2:12 E201
C::C(); => 2:7 E201
C::C() const {} => 2:8 E201
C<8>::C() {} => 2:2 E201
void C<8>::f() {} => 2:7 E201
void int f() {} => 2:6 E201
void f() => 2:9 E201
void f() {}; => 2:12 E201
void f() : a(1) {} => 2:10 E201
void f(int) {} => 2:11 E201
void f(int x,) {} => 2:14 E201
void f(x) {} => 2:8 E201
void f(void, int x) {} => 2:12 E201
void f(int x = 1) {} => 2:14 E201
void f(int x[2]) {} => 2:13 E201
void f(int **x) {} => 2:13 E201
void f(const const int x) {} => 2:14 E201
struct S {} => 2:12 E201
struct S; => 2:9 E201
struct S : C {}; => 2:12 E201
struct S : private sc_module {}; => 2:12 E201
struct S : public {}; => 2:19 E201
struct {}; => 2:8 E201
struct int {}; => 2:8 E201
SC_MODULE(S) : sc_module {}; => 2:14 E201
SC_MODULE S {}; => 2:11 E201
struct V<8> {}; => 2:9 E201
template<int W> struct V<8> {}; => 2:25 E201
template<> struct C<8> {}; => 2:20 E201
template<> SC_MODULE(V)<8> {}; => 2:24 E201
template<> struct V<8 {}; => 2:23 E201
template<> struct V<8>> {}; => 2:22 E201
template<int> struct S {}; => 2:13 E201
template<sc_uint<8> x> struct S {}; => 2:10 E201
template<T x> struct S {}; => 2:10 E201
template<int W, > struct S {}; => 2:17 E201
template<int W = int> struct S {}; => 2:21 E201
template<class T = 8> struct S {}; => 2:20 E201
template<class T = C(1)> struct S {}; => 2:21 E201
template<int W = 8 > 1> struct S {}; => 2:22 E201
template<int W = 8 >> 1> struct S {}; => 2:20 E201
template<int W>> struct S {}; => 2:15 E201
template<int W> enum F { G }; => 2:17 E201
template<int W> typedef int J; => 2:17 E201
template<int W> static void V<W>::f() {} => 2:17 E201
template<int W> void f() {} => 2:23 E201
template<int W> const int x = 1; => 2:29 E201
template int f() {} => 2:10 E201
template<int W> => 2:16 E201
inline V<8>::V() {} => 2:12 E201
V<8> x; => 2:7 E201
explicit C::C() {} => 2:1 E201
SC_CTOR(C) {} => 2:1 E201
struct S { int x = 1; }; => 2:18 E201
struct S { static int x; }; => 2:24 E201
struct S { static const x; }; => 2:25 E201
struct S { const int *x = 1; }; => 2:25 E201
struct S { int *f(); }; => 2:18 E201
struct S { int x[2]() {} }; => 2:20 E201
struct S { x y; }; => 2:14 E201
struct S { S(x); }; => 2:14 E201
struct S { S }; => 2:14 E201
struct S { S() const {} }; => 2:16 E201
struct S { public int x; }; => 2:19 E201
struct S { public: static: }; => 2:26 E201
struct S { struct D {}; }; => 2:12 E201
struct S { template<int W> void f(); }; => 2:12 E201
struct S { using namespace std; }; => 2:12 E201
struct S { void f() {}; }; => 2:23 E201
struct S { explicit void f(); }; => 2:21 E201
struct S { explicit SC_CTOR(S); }; => 2:21 E201
struct S { S() : a {} }; => 2:20 E201
struct S { S() : {} }; => 2:18 E201
struct S { S() : a(1), {} }; => 2:24 E201
struct S { S() : a(int x) {} }; => 2:24 E201
struct S { C::C() {} }; => 2:13 E201
struct S { void C::f() {} }; => 2:18 E201
struct S { void x; }; => 2:18 E201
struct S { int ; }; => 2:16 E201
struct S { int x y; }; => 2:18 E201
struct S { int x[]; }; => 2:18 E201
struct S { int x,; }; => 2:18 E201
struct S { typedef int J }; J x; => 2:26 E201
struct S { enum { G } }; => 2:23 E201
SC_MODULE(S) { SC_HAS_PROCESS(S) }; => 2:34 E201
SC_MODULE(S) { SC_CTOR(1) {} }; => 2:24 E201
SC_MODULE(S) { SC_CTOR(S) const {} }; => 2:27 E201
SC_MODULE(S) { SC_CTOR(S)(int x) {} }; => 2:26 E201
typedef int K; K x() { return K; } => 2:32 E201
K x(); typedef int K; => 2:3 E201
void f() { K x; } typedef int K; => 2:14 E201
template<int N> struct S { N x; }; => 2:30 E201
struct S { J x; typedef int J; }; => 2:14 E201
struct S { int x; }; x y(); => 2:24 E201
enum F { G }; G x(); => 2:17 E201
void f() { G x; } template<class G> struct S {}; => 2:14 E201
template<int N> struct S {}; void f() { C<8> x; } => 2:42 E201
template<> struct D {}; void f() { D<8> x; } => 2:37 E201
void f(int C) { C = 1; } => 2:19 E201
void f() { int K; K x; } => 2:21 E201
";
