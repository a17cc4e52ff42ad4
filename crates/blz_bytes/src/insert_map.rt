//! A map that keeps what was first put.
ghost use Rattle.std.specs.Prelude.{◌≡◌, ◌<◌, [], None, Some, cond, length, get_or, remove, IfErr, IfOk, IfSome, Ok, Err, OnErr, ◌⊎◌, alloc_error};
ghost use Rattle.std.specs.Borrow.{sem};
ghost use Rattle.std.specs.Map.{lookup, remove_entry};
ghost use Rattle.std.specs.Option.{UnwrapsOrElse, option_copied};
ghost use Rattle.blz_bytes.specs.Inserted.{put_absent, Retains, Says};

use std::alloc::{AllocError, Global};
use std::hash::Hash;
use std::marker::Model;

/// A map of few keys: a value that was put stays until it is taken out.
#[derive(Drop)]
pub struct InsertMap<K: Eq + Hash, V> {
    // in the order in which they were put
    pairs: Vec<(K, V)>,
}

impl<K: Eq + Hash, V> Model for InsertMap<K, V> {
    ghost use Rattle.std.specs.Prelude.{List};
    ghost use Rattle.std.specs.List.{IsDistinct};
    ghost use Rattle.std.specs.Map.{keys_of};

    ghost Value = { List (K × V) };

    ghost view = { λ m. m.pairs.items };

    ghost invariant = { λ m. IsDistinct K.eq (keys_of m.pairs.items) };
}

impl<K: Eq + Hash, V> InsertMap<K, V> {
    ghost use Rattle.blz_bytes.specs.MapEnds.{EndsPut};

    /// A map without keys.
    pub fn new(alloc: Global) -> InsertMap<K, V>
        ensures { result ≡ [] }
    {
        InsertMap {
            pairs: Vec::new(alloc),
        }
    }

    /// The number of keys.
    pub fn len(&self) -> usize
        ensures { result ≡ length self.now }
    {
        self.pairs.len()
    }

    // the place of a key
    fn find(&self, key: &K) -> Option<usize>
        ensures inside { IfSome result (λ i. i < length self.now) }
        ensures found { IfSome result
            (λ i. (d : K × V) → lookup (K.eq key.now) self.now ≡ Some (get_or self.now i d).1) }
        ensures taken { IfSome result
            (λ i. remove self.now i ≡ remove_entry (K.eq key.now) self.now) }
        ensures none { result ≡ None → lookup (K.eq key.now) self.now ≡ None }
    {
        for i in 0..self.pairs.len() {
            if *key == self.pairs[i].0 {
                return Some(i);
            }
        }
        None
    }

    /// The value of a key.
    pub fn get(&self, key: &K) -> Option<&V>
        ensures { option_copied result ≡ lookup (K.eq key.now) self.now }
    {
        let i = self.find(key)?;
        Some(&self.pairs[i].1)
    }

    // the place of the key's value, which is made and put where there is none
    fn put<G: FnOnce() -> V>(&mut self, key: K, init: G) -> Result<usize, AllocError>
    where
        K: Drop,
        V: Drop,
        requires { lookup (K.eq key) self.old ≡ None → G.pre init }
        ensures inside { IfOk result (λ i. i < length self.new) }
        ensures ok { IfOk result (λ i. (d : K × V)
            → UnwrapsOrElse (lookup (K.eq key) self.old) (G.post init) (get_or self.new i d).1
            × (self.new ≡ put_absent K.eq key (get_or self.new i d).1 self.old)) }
        ensures err { OnErr result (self.new ≡ self.old) }
    {
        match self.find(&key) {
            Some(i) => Ok(i),
            None => {
                let i = self.pairs.len();
                self.pairs.reserve(1)?;
                self.pairs.push((key, init()))?;
                Ok(i)
            },
        }
    }

    /// The value of a key. Where there is none, `init` makes it, and it stays; after want of memory all is as before.
    pub fn get_or_insert<G: FnOnce() -> V>(&mut self, key: K, init: G) -> Result<&V, AllocError>
    where
        K: Drop,
        V: Drop,
        requires { lookup (K.eq key) self.old ≡ None → G.pre init }
        ensures* after { sem 𝓛 (EndsPut K.row V.row K.Hash self.entry key result) }
        ensures value { IfOk result
            (λ v. UnwrapsOrElse (lookup (K.eq key) self.old) (G.post init) v.now) }
    {
        let i = self.put(key, init)?;
        Ok(&self.pairs[i].1)
    }

    /// Puts the value that `init` makes where the key has none, and gives the value's place; an error of `init` is given
    /// on. After each error all is as before.
    pub fn try_insert<E: From<AllocError>, G: FnOnce() -> Result<V, E>>(
        &mut self,
        key: K,
        init: G,
    ) -> Result<usize, E>
    where
        K: Drop,
        V: Drop,
        requires { lookup (K.eq key) self.old ≡ None → G.pre init }
        ensures inside { IfOk result (λ i. i < length self.new) }
        ensures ok { IfOk result (λ i. (d : K × V) → UnwrapsOrElse (lookup (K.eq key) self.old)
            (λ v. G.post init (Ok v)) (get_or self.new i d).1
            × (self.new ≡ put_absent K.eq key (get_or self.new i d).1 self.old)) }
        ensures err { IfErr result
            (λ e. (self.new ≡ self.old) × (lookup (K.eq key) self.old ≡ None)
            × (E.from_gives alloc_error e ⊎ G.post init (Err e))) }
    {
        if let Some(i) = self.find(&key) {
            return Ok(i);
        }
        let i = self.pairs.len();
        self.pairs.reserve(1)?;
        let value = init()?;
        self.pairs.push_reserved((key, value));
        Ok(i)
    }

    /// The value at a place, as `try_insert` gives one.
    pub fn at(&self, place: usize) -> &V
        requires { place < length self.now }
        ensures { (d : K × V) → result.now ≡ (get_or self.now place d).1 }
    {
        &self.pairs[place].1
    }

    /// The value of a key, which `init` makes where there is none. It is `try_insert` and then `at`, which say what the
    /// map is afterwards.
    pub fn get_or_try_insert<E: From<AllocError>, G: FnOnce() -> Result<V, E>>(
        &mut self,
        key: K,
        init: G,
    ) -> Result<&V, E>
    where
        K: Drop,
        V: Drop,
        requires { lookup (K.eq key) self.old ≡ None → G.pre init }
        ensures value { IfOk result
            (λ v. UnwrapsOrElse (lookup (K.eq key) self.old) (λ v. G.post init (Ok v)) v.now) }
        ensures err { IfErr result (λ e. (lookup (K.eq key) self.old ≡ None)
            × (E.from_gives alloc_error e ⊎ G.post init (Err e))) }
    {
        let place = self.try_insert(key, init)?;
        Ok(&self.pairs[place].1)
    }

    /// Keeps the keys of which a test says so, in their order.
    pub fn retain<G: Fn(&K, &V) -> bool>(&mut self, f: G)
    where
        K: Drop,
        V: Drop,
        requires { G.IsAlwaysCallable f }
        ensures { Retains (Says G.post f) self.old self.new }
    {
        let mut i = 0;
        while i < self.pairs.len() {
            let (key, value) = &self.pairs[i];
            if f(key, value) {
                i += 1;
            } else {
                let _ = self.pairs.remove(i);
            }
        }
    }

    /// Takes a key out, and gives its value.
    pub fn remove(&mut self, key: &K) -> Option<V>
    where
        K: Drop,
        ensures value { result ≡ lookup (K.eq key.now) self.old }
        ensures after { self.new ≡ remove_entry (K.eq key.now) self.old }
        ensures gone { (q : K)
            → lookup (K.eq q) self.new ≡ cond (K.eq key.now q) None (lookup (K.eq q) self.old) }
    {
        let i = self.find(key)?;
        let (_, value) = self.pairs.remove(i);
        Some(value)
    }
}
