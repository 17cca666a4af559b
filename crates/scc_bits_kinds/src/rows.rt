//! The rows of the operator table.
use crate::group::Group;
use crate::op::Op;
use crate::rule::Rule;
use crate::table::Row;

/// The rows of operators that are given by the form of their rows, in order: one array of all.
macro_rules! rows {
    (
        arithmetic($($sum:ident $sum_wide:ident),*)
        bitwise($($bitwise:ident $small:ident $large:ident $bits:ident),*)
        order($($order:ident),*)
        shift($($shift:ident $wide:ident),*)
        logical($($both:ident),*)
        sign($($sign:ident $sign_wide:ident),*)
        complement($($not:ident),*)
        negation($($truth:ident),*)
        reduction($($reduce:ident),*)
    ) => {
        rows!(@
            $(
                [$sum Bool: Bool Common, Native Common, Int Common, Uint Common, Big $sum_wide, BigInt $sum_wide, Wide $sum_wide]
                [$sum Native: Bool Common, Native Common, Int Common, Uint Common, Big $sum_wide, BigInt $sum_wide, Wide $sum_wide]
                [$sum Int: Bool Common, Native Common, Int Common, Uint Common, Big $sum_wide, BigInt $sum_wide, Wide $sum_wide]
                [$sum Uint: Bool Common, Native Common, Int Common, Uint Common, Big $sum_wide, BigInt $sum_wide, Wide $sum_wide]
                [$sum Big: Bool $sum_wide, Native $sum_wide, Int $sum_wide, Uint $sum_wide, Big $sum_wide, BigInt $sum_wide, Wide $sum_wide]
                [$sum BigInt: Bool $sum_wide, Native $sum_wide, Int $sum_wide, Uint $sum_wide, Big $sum_wide, BigInt $sum_wide, Wide $sum_wide]
                [$sum Wide: Bool $sum_wide, Native $sum_wide, Int $sum_wide, Uint $sum_wide, Big $sum_wide, BigInt $sum_wide, Wide $sum_wide]
            )*
            $(
                [$bitwise Bool: Bool $small, Native $small, Int $small, Uint $small, Big $large, BigInt $large, Wide $large]
                [$bitwise Native: Bool $small, Native $small, Int $small, Uint $small, Big $large, BigInt $large, Wide $large]
                [$bitwise Int: Bool $small, Native $small, Int $small, Uint $small, Big $large, BigInt $large, Wide $large]
                [$bitwise Uint: Bool $small, Native $small, Int $small, Uint $small, Big $large, BigInt $large, Wide $large]
                [$bitwise Big: Bool $large, Native $large, Int $large, Uint $large, Big $large, BigInt $large, Wide $large]
                [$bitwise BigInt: Bool $large, Native $large, Int $large, Uint $large, Big $large, BigInt $large, Wide $large]
                [$bitwise Bv: Bv $bits]
                [$bitwise Wide: Bool $large, Native $large, Int $large, Uint $large, Big $large, BigInt $large, Wide $large]
            )*
            $(
                [$order Bool: Bool CommonTest, Native CommonTest, Int CommonTest, Uint CommonTest, Big WideTest, BigInt WideTest, Wide WideTest]
                [$order Native: Bool CommonTest, Native CommonTest, Int CommonTest, Uint CommonTest, Big WideTest, BigInt WideTest, Wide WideTest]
                [$order Int: Bool CommonTest, Native CommonTest, Int CommonTest, Uint CommonTest, Big WideTest, BigInt WideTest, Wide WideTest]
                [$order Uint: Bool CommonTest, Native CommonTest, Int CommonTest, Uint CommonTest, Big WideTest, BigInt WideTest, Wide WideTest]
                [$order Big: Bool WideTest, Native WideTest, Int WideTest, Uint WideTest, Big WideTest, BigInt WideTest, Wide WideTest]
                [$order BigInt: Bool WideTest, Native WideTest, Int WideTest, Uint WideTest, Big WideTest, BigInt WideTest, Wide WideTest]
                [$order Wide: Bool WideTest, Native WideTest, Int WideTest, Uint WideTest, Big WideTest, BigInt WideTest, Wide WideTest]
            )*
            $(
                [$shift Bool: Bool PromotedShift, Native PromotedShift, Int PromotedShift, Uint PromotedShift]
                [$shift Native: Bool PromotedShift, Native PromotedShift, Int PromotedShift, Uint PromotedShift]
                [$shift Int: Bool PromotedShift, Native PromotedShift, Int PromotedShift, Uint PromotedShift]
                [$shift Uint: Bool PromotedShift, Native PromotedShift, Int PromotedShift, Uint PromotedShift]
                [$shift Big: Bool $wide, Native $wide, Int $wide, Uint $wide]
                [$shift BigInt: Bool $wide, Native $wide, Int $wide, Uint $wide]
                [$shift Bv: Bool BitsShift, Native BitsShift, Int BitsShift, Uint BitsShift]
                [$shift Wide: Bool $wide, Native $wide, Int $wide, Uint $wide]
            )*
            $(
                [$both Bool: Bool Logical, Native Logical, Int Logical, Uint Logical]
                [$both Native: Bool Logical, Native Logical, Int Logical, Uint Logical]
                [$both Int: Bool Logical, Native Logical, Int Logical, Uint Logical]
                [$both Uint: Bool Logical, Native Logical, Int Logical, Uint Logical]
            )*
            $(
                [$sign Bool: Bool Promoted]
                [$sign Native: Native Promoted]
                [$sign Int: Int Promoted]
                [$sign Uint: Uint Promoted]
                [$sign Big: Big $sign_wide]
                [$sign BigInt: BigInt $sign_wide]
                [$sign Wide: Wide $sign_wide]
            )*
            $(
                [$not Bool: Bool Promoted]
                [$not Native: Native Promoted]
                [$not Int: Int Promoted]
                [$not Uint: Uint Promoted]
                [$not Big: Big WideComplement]
                [$not BigInt: BigInt WideComplement]
                [$not Bv: Bv BitsComplement]
                [$not Wide: Wide WideComplement]
            )*
            $(
                [$truth Bool: Bool Logical]
                [$truth Native: Native Logical]
                [$truth Int: Int Logical]
                [$truth Uint: Uint Logical]
            )*
            $(
                [$reduce Int: Int Reduction]
                [$reduce Uint: Uint Reduction]
                [$reduce Big: Big Reduction]
                [$reduce BigInt: BigInt Reduction]
                [$reduce Bv: Bv Reduction]
            )*
        )
    };
    (@ $([$op:ident $left:ident: $($right:ident $rule:ident),*])*) => {
        [$($(Row { op: Op::$op, left: Group::$left, right: Group::$right, rule: Rule::$rule }),*),*]
    };
}

/// The operator table of the source language.
pub(crate) static ROWS: [Row; 828] = rows!(
    arithmetic(Add WideSum, Sub WideDifference, Mul WideProduct, Div WideQuotient, Rem WideQuotient)
    bitwise(And Common WideBits BitsBoth, Or Common WideBits BitsBoth, Xor Common WideBits BitsBoth,
        Eq CommonTest WideTest BitsTest, Ne CommonTest WideTest BitsTest)
    order(Lt, Le, Gt, Ge)
    shift(Shl WideLeft, Shr WideRight)
    logical(LogAnd, LogOr)
    sign(Plus WideSame, Neg WideNegation)
    complement(Not)
    negation(LogNot)
    reduction(AndReduce, OrReduce, XorReduce)
);
