//! Valid files that have each form of the grammar, with blanks between all tokens.

pub(crate) const SIGNATURES: &str = "
    signature
      sorts Exp List ( Exp ) Map ( Exp , List ( Exp ) )
      constructors
        Zero : Exp
        Plus : Exp * Exp -> Exp
        Nil : List ( Exp )
        : Exp -> List ( Exp )
        : Exp * Exp * Exp -> Map ( Exp , Exp )
        Last : List ( A ) -> B
      sorts constructors
    signature rules strategies
    signature sorts A";

pub(crate) const FORMS: &str = "
    rules
      r : x -> x
      s ( ) : 1 -> \"a\"
      t ( f ) : _ -> ( ) where id
      u' ( f , g' | x , y ) : Plus ( x , y ) -> Zero ( ) where < f > x => y
      v ( | ) : x' -> x'
      w ( | x ) : x -> x
      a ( f | ) = f
    strategies
      main = id
      b ( f , g ) = fail
      c ( | x ) : x -> < id > y
      main = r";

pub(crate) const OPERATORS: &str = "
    strategies
      main = a ; b <+ c ; d <+ e => x ; f
      f = a < b + c
      g = a ; b < c <+ d + e < f + g
      h = ! < id > f
      k = ! x < s + ! < id > < id > y <+ < < id > x > y => _
      l = { x : id } ; { x , y' , z : ? x } ; ( id )";

pub(crate) const PRIMARIES: &str = "
    strategies
      main = where ( a ) ; not ( id <+ fail ) ; all ( b ) ; one ( c ) ; some ( ? x ; ! y )
      f = if a then b end ; if a ; b then c else if d then e end end
      g = rec x ( x <+ id )
      h = let f = id in f end
      k = let f ( s ) = s g ( | x ) = ! x <+ id in f ( g ( | 1 ) ) end
      l = prim ( \"p\" ) ; prim ( \"q\" , 1 , x , < id > )
      m = \\ x -> y \\ ; \\ ( x , y ) -> x where \\ z -> z \\ <+ id \\";

pub(crate) const CALLS: &str = "
    strategies
      main = f ; f ( ) ; f' ( id ) ; f ( id , fail <+ id ) ; f ( | )
      f = f ( id | 1 ) ; f ( id , id | 1 , x ) ; f ( | C ( ) ) ; f ( id | )
      g = ( ) ; ( id , fail ) ; ( a , b , ( c ) )
      h = [ ] <+ [ id ] <+ [ id , a ; b ] <+ [ a | b ] <+ [ a , b | c ]";

pub(crate) const MATCHES: &str = "
    strategies
      main = ? x ; ? _ ; ? y @ 1 ; ? -1 ; ? \"q\" ; ? x @ y @ C ( x )
      f = ? C ( ) ; ? D ( x , _ , 0 ) ; ? f'
      g = ? ( x ) ; ? ( ) ; ? ( x , y ) ; ? ( x , ( y , z ) , w )
      h = ? [ ] ; ? [ x ] ; ? [ x , y ] ; ? [ x | y ] ; ? [ x , y | [ z ] ]
    rules
      r : [ C ( x ) | _ ] -> x";

pub(crate) const BUILDS: &str = "
    strategies
      main = ! x ; ! _ ; ! y @ 1 ; ! -1 ; ! \"q\" ; ! x @ < f > y
      f = ! C ( ) ; ! D ( < id > , < a ; b > 0 ) ; ! f'
      g = ! ( x ) ; ! ( ) ; ! ( x , y ) ; ! ( < a > , ( y ) , w )
      h = ! [ ] ; ! [ x ] ; ! [ x , < f > ] ; ! [ x | < g > ] ; ! [ x , y | [ z ] ]
      k = ! < id > ; ! < id > 1 ; < f > < g > ( < h > )";

/// A file is read once for each edit of each of its words, so short ones cost less.
pub(crate) const ANNOTATED_MATCHES: &str = "
    rules r : x @ C ( y ) { 1 { } , _ } -> y
    strategies main = ? ( x ) { y @ z } ; id";

pub(crate) const ANNOTATED_BUILDS: &str = "
    strategies main = ! [ ] { } ; < f > x { < id > , \"q\" { y } } <+ ! ( < f > ) { < f > 1 { } }";

pub(crate) const ALL: &[&str] = &[
    SIGNATURES,
    FORMS,
    OPERATORS,
    PRIMARIES,
    CALLS,
    MATCHES,
    BUILDS,
    ANNOTATED_MATCHES,
    ANNOTATED_BUILDS,
];
