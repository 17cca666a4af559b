//! Expressions, which stand behind `return`, and types, which stand before a local's name. The types that are declared are the
//! class `C`, the templates `V` and `P`, the parameter `T`, the alias `I` and the enumeration `E`.

/// Expressions and their trees.
pub const EXPRESSIONS: &str = "
1 => 1
0x80000000 => 2147483648:u32
5ull => 5:u64
true => true
false => false
this => this
NULL => null
nullptr => null
x => x
// an enumerator is no type, and a number as template parameter is none
A + W => (A + W)
// a name before `::` is a type by its place
x::y => (:: x y)
C::y => (:: C y)
C::C => (:: C C)
V::y => (:: V y)
V<8>::y => (:: (V 8) y)
V<>::y => (:: (V) y)
V<V<8>::y>::z => (:: (V (:: (V 8) y)) z)
V<V<8>>::y => (:: (V :(V 8)) y)
V<V<8> >::y => (:: (V :(V 8)) y)
// `<` behind a name that is no template is an operator
x<8>y => (x < 8 > y)
x<y>(z) => (x < y > z)
int(x) => (cast s32 x)
bool(1) => (cast bool 1)
unsigned(x) => (cast u32 x)
unsigned short int(x) => (cast u16 x)
sc_uint<8>(x) => (cast (sc_uint 8) x)
sc_in_clk(x) => (cast (in bool) x)
C(x) => (cast C x)
T(x) => (cast T x)
I(x) => (cast I x)
E(x) => (cast E x)
V<8>(x) => (cast (V 8) x)
C(x)(y) => (cast C x)(y)
C(x) + 1 => ((cast C x) + 1)
static_cast<int>(x) => (cast s32 x)
static_cast<const C>(x) => (cast const C x)
static_cast<V<8> >(x) => (cast (V 8) x)
static_cast<V<8>>(x) => (cast (V 8) x)
static_cast<int>(x).y => (cast s32 x).y
(int) x => (cast s32 x)
(const C) x => (cast const C x)
(C) x + y => ((cast C x) + y)
(C) -x => (cast C (- x))
(C) (x) => (cast C x)
(C) (int) x => (cast C (cast s32 x))
(V<8>) x => (cast (V 8) x)
(V<V<8>>) x => (cast (V :(V 8)) x)
// the name in the brackets is no type
(x) -y => (x - y)
(x) (y) => x(y)
(x) * y => (x * y)
(C(x)) (y) => (cast C x)(y)
(C(x) + y) => ((cast C x) + y)
(C::x) (y) => (:: C x)(y)
(C::x, y) => (concat (:: C x) y)
concat(x, y + 1) => (concat x (y + 1))
(x, y, z) => (concat x y z)
((x, y), z) => (concat (concat x y) z)
(x) => x
((x)) => x
a + b - c => (a + b - c)
a - (b - c) => (a - (b - c))
a + b * c - d => (a + (b * c) - d)
a * b + c => ((a * b) + c)
a * b / c % d => (a * b / c % d)
a << b >> c + d => (a << b >> (c + d))
a < b <= c > d >= e => (a < b <= c > d >= e)
a == b != c < d => (a == b != (c < d))
a & b == c => (a & (b == c))
a ^ b & c => (a ^ (b & c))
a | b ^ c => (a | (b ^ c))
a && b | c => (a && (b | c))
a || b && c => (a || (b && c))
a || b && c | d ^ e & f == g < h << i + j * k => (a || (b && (c | (d ^ (e & (f == (g < (h << (i + (j * k))))))))))
a * b + c << d < e == f & g ^ h | i && j || k => ((((((((((a * b) + c) << d) < e) == f) & g) ^ h) | i) && j) || k)
-x => (- x)
+x => (+ x)
!x => (! x)
~x => (~ x)
*x => (* x)
&x => (& x)
- -x => (- (- x))
!~x => (! (~ x))
-x * -y => ((- x) * (- y))
a * *b => (a * (* b))
a & &b => (a & (& b))
*x->y[1] => (* x->y[1])
-(C) x => (- (cast C x))
x[1][y] => x[1][y]
x.a->b => x.a->b
x.C => x.C
x() => x()
x(1, y)(z) => x(1 y)(z)
x(\"t\", y) => x(text y)
x(new C()) => x((new C))
x(new V<8>(\"t\", new C(1)), y) => x((new (V 8) text (new C 1)) y)
1[2].x => 1[2].x
(a, b).c() => (concat a b).c()
a ? b : c => (? a b c)
a ? b : c ? d : e => (? a b (? c d e))
a ? b ? c : d : e => (? a (? b c d) e)
a || b ? c + 1 : d => (? (a || b) (c + 1) d)
x[a ? b : c] => x[(? a b c)]
(a ? b : c) + 1 => ((? a b c) + 1)
";

/// Types and their trees.
pub const TYPES: &str = "
bool => bool
int => s32
short => s16
short int => s16
int64 => s64
uint64 => u64
unsigned => u32
unsigned int => u32
unsigned short => u16
unsigned short int => u16
unsigned char => u8
signed => s32
signed int => s32
signed short => s16
signed short int => s16
signed char => s8
const int => const s32
sc_int<8> => (sc_int 8)
sc_uint<W + 1> => (sc_uint (W + 1))
sc_biguint<2 * W> => (sc_biguint (2 * W))
sc_bigint<-1> => (sc_bigint (- 1))
sc_bv<(a > 1)> => (sc_bv (a > 1))
sc_uint<V<8>::w> => (sc_uint (:: (V 8) w))
sc_uint<V<8>(1)> => (sc_uint (cast (V 8) 1))
sc_in<bool> => (in bool)
sc_out<sc_uint<8> > => (out (sc_uint 8))
sc_signal<sc_uint<8>> => (signal (sc_uint 8))
sc_in<const C> => (in const C)
sc_vector<sc_signal<sc_uint<8>>> => (vector (signal (sc_uint 8)))
sc_vector<sc_signal<sc_uint<8> >> => (vector (signal (sc_uint 8)))
sc_vector<sc_signal<sc_uint<8>> > => (vector (signal (sc_uint 8)))
sc_in_clk => (in bool)
sc_module_name => module_name
C => C
const E => const E
V => V
V<8, x, C> => (V 8 x :C)
V<> => (V)
P<const V<8>> => (P :const (V 8))
// with brackets behind it a type begins a value
P<C(1)> => (P (cast C 1))
P<C::x + 1> => (P ((:: C x) + 1))
P<(C) 1> => (P (cast C 1))
P<V<1>(2)> => (P (cast (V 1) 2))
P<P<V<1>>, 2> => (P :(P :(V 1)) 2)
";
